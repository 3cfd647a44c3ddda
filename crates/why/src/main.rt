// The desk's program: why the drive on standard input offers no HEK, in one line. It rests on `desk`,
// and `report` decides what is printed.
#![tactic(auto)]

use report::Program;

fn main(rt: HostRuntime) {
    desk::run(&rt, Program::Why);
}
