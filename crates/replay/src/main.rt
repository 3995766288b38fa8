// The replay program, on all the vectors.
#![tactic(auto)]

fn main(rt: HostRuntime) {
    replay_run::run(&mut rt.stdin(), &mut rt.stdout());
}
