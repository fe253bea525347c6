// The small program's run on an accepted sheet of 65,536 bytes, whose answer is longer than 4,096 bytes. `oracle/programs` makes the files.
#![tactic(auto)]

use program::run;

fn main(rt: HostRuntime) {
    run(&rt);
}
