// The converter as a program: convert FORMAT FROM TO.
#![tactic(auto)]

fn main(rt: HostRuntime) {
    convert_run::run(&rt);
}
