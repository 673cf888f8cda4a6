// Reading a line of a script.
ghost use Rattle.std.specs.Prelude.{◌≡◌, ◌<◌, ◌≤◌, length, IfSome, IfOk, IfErr};
ghost use Rattle.std.specs.Result.{result_ok};
ghost use Rattle.script.specs.declared.trouble.LineFault.TheVariants.{NoNumber};
ghost use Rattle.script.specs.Typed.{Reads, Typed, AllTyped, AskedTyped};

use crate::call::{BindCall, Call, Pair};
use crate::trouble::{LineFault, Trouble};
use matching::{Asked, Relation};
use std::alloc::Global;

// What stands between the sides of a rule, and between a left side and a formula.
const ARROW: &str = "->";

const BAR: &str = "|";

// The line without its comment.
fn before_comment(line: &str) -> &str {
    line.split_once('#').map_or(line, |(code, _)| code)
}

// A number in digits of the radix, with no sign.
fn parse_digits(digits: &str, radix: u32) -> Option<u32>
    requires low { 2 ≤ radix }
    requires high { radix ≤ 36 }
    ensures { Reads radix digits.now result }
{
    if digits.starts_with('+') {
        return None;
    }
    u32::from_str_radix(digits, radix).ok()
}

// A word of 32 bits, typed in decimal, or in hexadecimal after 0x.
fn parse_number(word: &str) -> Option<u32>
    ensures { Typed word.now result }
{
    match (word.strip_prefix("0x"), word.strip_prefix("0X")) {
        (Some(digits), _) | (_, Some(digits)) => parse_digits(digits, 16),
        _ => parse_digits(word, 10),
    }
}

// The same as a cell of a line, which blames the word.
fn parse_cell(word: &str) -> Result<u32, LineFault<'_>>
    ensures value { Typed word.now (result_ok result) }
    ensures blames { IfErr result (λ f. f ≡ NoNumber word.entry) }
{
    parse_number(word).ok_or(LineFault::NoNumber(word))
}

// A cell for each word, in order.
fn parse_cells<'a>(heap: Global, words: &[&'a str]) -> Result<Vec<u32>, Trouble<'a>>
    ensures { IfOk result (λ v. AllTyped words.now v.items) }
{
    words
        .iter()
        .map(|word| Ok(parse_cell(word)?))
        .try_collect(heap)
}

// The rows before and after the mark.
fn parse_pair<'a>(
    heap: Global,
    words: &[&'a str],
    mark: &'static str,
) -> Result<Pair, Trouble<'a>> {
    let mut rows = words.split(|word| *word == mark);
    match (rows.next(), rows.next(), rows.next()) {
        (Some(left), Some(right), None) => Ok(Pair {
            left: parse_cells(heap, left)?,
            right: parse_cells(heap, right)?,
        }),
        (_, None, _) => Err(LineFault::NoMark(mark).into()),
        _ => Err(LineFault::SecondMark(mark).into()),
    }
}

// The variable that a binding is asked for, of the kind that the relation asks for.
fn parse_asked<'a>(relation: &'a str, variable: &'a str) -> Result<Asked, LineFault<'a>>
    ensures { IfOk result (AskedTyped relation.now variable.now) }
{
    let relation = relation
        .parse::<Relation>()
        .map_err(|_| LineFault::UnknownRelation(relation))?;
    Ok(Asked::new(relation, parse_cell(variable)?))
}

// The call that the words of a line make, if there are any.
fn parse_call<'a>(heap: Global, words: &[&'a str]) -> Result<Option<Call>, Trouble<'a>> {
    let call = match words {
        [] => return Ok(None),
        ["check", "formula", cells @ ..] => Call::CheckFormula(parse_cells(heap, cells)?),
        ["check", "rule", sides @ ..] => Call::CheckRule(parse_pair(heap, sides, ARROW)?),
        ["check", word, ..] => return Err(LineFault::UnknownCheck(word).into()),
        ["check"] => return Err(LineFault::NothingToCheck.into()),
        ["bind", relation, variable, rows @ ..] => Call::Bind(BindCall {
            asked: parse_asked(relation, variable)?,
            rows: parse_pair(heap, rows, BAR)?,
        }),
        ["bind", ..] => return Err(LineFault::NothingToBind.into()),
        ["relate", rows @ ..] => Call::Relate(parse_pair(heap, rows, BAR)?),
        ["common", rows @ ..] => Call::Common(parse_pair(heap, rows, BAR)?),
        [word, ..] => return Err(LineFault::UnknownCall(word).into()),
    };
    Ok(Some(call))
}

// The call of a line, if it has more than a comment.
pub fn parse_line(heap: Global, line: &str) -> Result<Option<Call>, Trouble<'_>> {
    let words: Vec<&str> = before_comment(line).split_whitespace().collect(heap)?;
    parse_call(heap, words.as_slice())
}
