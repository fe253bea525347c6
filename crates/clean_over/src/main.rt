// The small program's run on 65,537 bytes, of which the first 65,536 are an accepted sheet: 1. `oracle/programs` makes the files.
#![tactic(auto)]

use program::run;

fn main(rt: HostRuntime) {
    run(&rt);
}
