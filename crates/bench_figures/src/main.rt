// The bench figures that are not proved, and their neighbours, from the core and from a second
// implementation: each line has both, and `stdout` beside this folder what they have to be.
#![tactic(auto)]

mod forms;
mod shown;
mod taps;

fn main(rt: HostRuntime) {
    taps::one_by_one(&rt);
    taps::sets(&rt);
    forms::counts(&rt);
}
