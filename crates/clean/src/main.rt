// Document 01's small program.
#![tactic(auto)]

use program::run;

fn main(rt: HostRuntime) {
    run(&rt);
}
