// A refusal becomes a fault: outside a journal's text it has a line and no place.
ghost use Rattle.std.specs.Prelude.{◌≡◌};
ghost use Rattle.std.specs.Result.{result_map_both};
ghost use Rattle.refusal.specs.Faults.{fault_at};

use refusal::{Fault, Refusal};

// What a check answers, reported of a line.
pub(crate) fn reported<T>(line: u32, checked: Result<T, Refusal>) -> Result<T, Fault>
    ensures { result ≡ result_map_both (λ x. x) (fault_at line) checked }
{
    checked.map_err(|refusal| refusal.on(line))
}
