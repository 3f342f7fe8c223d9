// The program's arguments.
use std::alloc::Global;
use std::env::Args;

#[derive(Drop)]
pub struct Options {
    // the file that the record's bytes go to
    pub record: Option<String>,
    // whether the open lots are printed too
    pub lots: bool,
}

impl Options {
    // The first argument is the program's name. None, if there is an argument that the program does not know.
    pub(crate) fn parse(args: Args<Global>) -> Option<Options> {
        let mut options = Options {
            record: None,
            lots: false,
        };
        let mut args = args.skip(1);
        while let Some(arg) = args.next() {
            match arg.as_str() {
                "--lots" => options.lots = true,
                "--record" => options.record = Some(args.next()?),
                _ => return None,
            }
        }
        Some(options)
    }
}
