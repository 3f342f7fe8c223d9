// Writing one field.
ghost use Rattle.std.specs.Prelude.{◌≡◌, ◌+◌, ◌≤◌, ◌++◌, length, take};
ghost use Rattle.record.specs.Layout.{write_at};

// What stands before `at` stays, the field follows it, and what stands behind it stays too.
pub fn put<const N: usize>(out: &mut [u8], at: usize, field: [u8; N])
    requires { at + N ≤ length out.old }
    ensures front { take (at + N) out.new ≡ take at out.old ++ field.entry }
    ensures written { out.new ≡ write_at out.old at field.entry }
{
    out[at..at + N].copy_from_slice(&field);
}
