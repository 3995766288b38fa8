// WAVE files as a program: wave write FORMAT CHANNELS RATE FROM TO, wave read FROM TO.
#![tactic(auto)]

fn main(rt: HostRuntime) {
    wave_run::run(&rt);
}
