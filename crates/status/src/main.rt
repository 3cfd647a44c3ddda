// The status program: the state of each partition of the drive on standard input. It rests on `desk`,
// and `report` decides what is printed.
#![tactic(auto)]

use report::Program;

fn main(rt: HostRuntime) {
    desk::run(&rt, Program::Status);
}
