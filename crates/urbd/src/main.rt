//! The program `urbd`: logged uniform FIFO broadcast, by its command line.
#![tactic(auto)]

use std::marker::Brand;
use std::process::ExitCode;
use urb_daemon::run_program;
use urb_folder::{FolderClaim, NodeFile};

fn main(rt: HostRuntime) -> ExitCode {
    let claim = FolderClaim::new();
    ExitCode::from(run_program::<NodeFile<Brand>, _, _, _, _>(rt, &rt, &rt, rt.reader(), rt, claim))
}
