// Compares the library with a second, naive matcher and unifier, on some thousands of pairs of small rows.
#![tactic(auto)]

mod compare;
mod forms;
mod naive;
mod numbers;
mod rows;
mod tally;
mod unify;
mod word;

use compare::{Finding, compare};
use forms::compare_forms;
use matching::Relation;
use numbers::Numbers;
use rows::{Pair, overlapping_pair, random_pair};
use std::alloc::{AllocError, Global};
use std::{env, fmt};
use tally::Tally;

// All is tried on the same pairs.
const SEED: u64 = 20;

const PAIRS: u32 = 4096;

// How many differences of one kind are shown.
const SHOWN: usize = 3;

// Compares on pairs that are made one after another, prints what comes of them, and answers how many differences there are.
fn try_pairs<N, M, C>(rt: &HostRuntime, name: N, make: M, compare: C) -> anyhow::Result<usize>
where
    N: fmt::Display + Copy,
    M: Fn(Global, &mut Numbers) -> Result<Pair, AllocError>,
    C: Fn(Global, &Pair) -> Result<Finding, AllocError>,
    requires make { M.IsAlwaysCallable make }
    requires compare { C.IsAlwaysCallable compare }
{
    let mut numbers = Numbers::new(SEED);
    let mut tally = Tally::default();
    for _ in 0..PAIRS {
        let pair = make(rt.alloc(), &mut numbers)?;
        let finding = compare(rt.alloc(), &pair)?;
        if !finding.agree && tally.differences < SHOWN {
            println!(rt; "{name} differs:{pair}")?;
        }
        tally.count(finding);
    }
    println!(rt; "{name}: {tally}")?;
    Ok(tally.differences)
}

// The relations that bind variables.
fn try_relations(rt: &HostRuntime) -> anyhow::Result<usize> {
    let mut differences: usize = 0;
    for relation in [Relation::General, Relation::Instance, Relation::Variant] {
        let more = try_pairs(rt, relation, random_pair, |heap, pair| {
            compare(heap, relation, pair)
        })?;
        differences = differences.saturating_add(more);
    }
    Ok(differences)
}

// Unification, on the same pairs and on such as often overlap.
fn try_forms(rt: &HostRuntime) -> anyhow::Result<usize> {
    let unifiable = try_pairs(rt, Relation::Unifiable, random_pair, compare_forms)?;
    let overlapping = try_pairs(rt, "overlapping", overlapping_pair, compare_forms)?;
    Ok(unifiable.saturating_add(overlapping))
}

// The relations that bind variables, or with the word `forms` unification.
fn main(rt: HostRuntime) -> anyhow::Result<()> {
    let word = env::args(&rt)?.nth(1);
    let differences = if word.is_some_and(|word| word.as_str() == "forms") {
        try_forms(&rt)?
    } else {
        try_relations(&rt)?
    };
    println!(rt; "{differences} differences")?;
    Ok(())
}
