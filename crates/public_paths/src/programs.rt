//! Runs, and the decoder of the programs.

use crate::expect::holds;
use character_references::decoder::Decoder;
use markdown_tree::to_mdast::compile;
use mdast_programs::check::run_check;
use mdast_programs::run::run;

#[test]
fn runs_without_events_end_with_0(rt: HostRuntime) {
    let mut output = Vec::new(rt.alloc());
    let mut input: &[u8] = b"";
    holds(&rt, run(rt.alloc(), b"", &mut input, &mut output) == 0);
    let mut input: &[u8] = b"";
    holds(
        &rt,
        run_check(rt.alloc(), b"", &mut input, &mut output) == 0,
    );
}

#[test]
fn the_decoder_of_the_programs_is_one_of_references(rt: HostRuntime) {
    holds(&rt, compile(rt.alloc(), &[], b"", &Decoder).is_ok());
}
