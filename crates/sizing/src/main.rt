// The program. All of it stands in the crate `program`, so that the gate can run it twice: here on a month of full size.
#![tactic(auto)]

fn main(rt: HostRuntime) {
    program::run(&rt, &mut rt.stdin());
}
