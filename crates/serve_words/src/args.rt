//! The kinds of argument of `serve`: long, short, and flags.

ghost use Rattle.std.specs.Prelude.{◌≡◌, false};
ghost use Rattle.clap.specs.Walk.{rule_of};
ghost use Rattle.serve_words.specs.Rules.{flag_rule, long_rule, short_rule};

use clap::{Arg, ArgAction};
use std::alloc::Global;

// `--NAME VALUE`, once.
pub fn long_arg<'a>(alloc: Global, name: &'a str, required: bool) -> Arg<'a>
    ensures rule { rule_of result ≡ long_rule name.entry.now required }
    ensures local { result.global ≡ false }
{
    Arg::new(alloc, name)
        .long(name)
        .action(ArgAction::Set)
        .required(required)
}

// `-LETTER VALUE`, once. Its value is found by the name.
pub fn short_arg<'a>(alloc: Global, name: &'a str, letter: char, required: bool) -> Arg<'a>
    ensures rule { rule_of result ≡ short_rule name.entry.now letter required }
    ensures local { result.global ≡ false }
{
    Arg::new(alloc, name)
        .short(letter)
        .action(ArgAction::Set)
        .required(required)
}

// `--NAME`, once.
pub fn flag_arg<'a>(alloc: Global, name: &'a str) -> Arg<'a>
    ensures rule { rule_of result ≡ flag_rule name.entry.now }
    ensures local { result.global ≡ false }
{
    Arg::new(alloc, name).long(name).action(ArgAction::SetTrue)
}
