// The planners' program: the image of the map whose text is on standard input, on standard output. It
// rests on `desk`, and `report` decides what is printed, and where.
#![tactic(auto)]

use report::Program;

fn main(rt: HostRuntime) {
    desk::run(&rt, Program::MakeMap);
}
