// The two sheets of the folder that it is run in.
#![tactic(auto)]

fn main(rt: HostRuntime) {
    running::run(&rt, b"on.cnf", b"off.cnf");
}
