// Runs the cases of standard input, a line each, and prints what each call answered.
#![tactic(auto)]

mod calls;

use crate::calls::call;
use replay_input::{Given, Lent, Reader, Sizes};
use replay_output::Output;

fn run(rt: &(impl Input + Print), given: &mut Given, lent: &mut Lent) {
    let mut reader = Reader::new(rt);
    let mut output = Output::new(rt);
    // Only the input tells how many lines there are.
    while reader.left > 0 {
        let line = reader.read_line(given, lent);
        call(&mut output, given.case(), line, lent);
    }
}

fn main(rt: HostRuntime) {
    let mut ends = [0; 8400];
    let mut presets = [0; 4200];
    let mut file = [0; 33000];
    let mut list = [0; 65600];
    let mut entries = [0; 8400];
    let mut bytes = [0; 100000];
    let mut given = Given {
        sizes: Sizes::default(),
        ends: &mut ends,
        presets: &mut presets,
        file: &mut file,
    };
    let mut lent = Lent {
        list: &mut list,
        entries: &mut entries,
        bytes: &mut bytes,
    };
    run(&rt, &mut given, &mut lent);
}
