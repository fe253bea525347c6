// The small program's run on a sheet that is refused with 5. `oracle/programs` makes the files.
#![tactic(auto)]

use program::run;

fn main(rt: HostRuntime) {
    run(&rt);
}
