ghost use Rattle.std.specs.Prelude.{◌≡◌, ◌≤◌, ◌^◌, IfOk};
ghost use Rattle.std.specs.Option.{option_map};
ghost use Rattle.journal.specs.RestOfLine.{until_missing};
ghost use Rattle.journal.specs.Grammar.{pages_until_missing_of, numbers_of, pages_of, some_numbers_of};

use crate::fields::{Fields, is_word};
use crate::numbers::{parse_below, parse_u32};
use geom_core::{Memory, Nums};
use std::alloc::Global;

/// Returns the numbers that the fields spell, or None if some field spells no number below `limit`.
fn parse_numbers(alloc: Global, fields: Fields, limit: u64) -> Result<Option<Vec<u32>>, Memory>
    requires { limit ≤ 2 ^ 32 }
    ensures { IfOk result (λ found.
        option_map (λ numbers. numbers.items) found ≡ numbers_of limit fields.entry) }
{
    let mut numbers = Vec::new(alloc);
    let mut left = fields;
    while let Some((field, rest)) = left.split_first() {
        let Some(number) = parse_below(field, limit) else {
            return Ok(None);
        };
        numbers.push(number)?;
        left = rest;
    }
    Ok(Some(numbers))
}

/// Returns the numbers that the fields spell, or None if there is no field or some field spells no number
/// below `limit`.
pub fn parse_some_numbers(alloc: Global, fields: Fields, limit: u64) -> Result<Option<Nums>, Memory>
    requires { limit ≤ 2 ^ 32 }
    ensures { IfOk result (λ found. found ≡ some_numbers_of limit fields.entry) }
{
    if fields.is_empty() {
        return Ok(None);
    }
    Ok(parse_numbers(alloc, fields, limit)?.map(Nums::of))
}

/// Returns the pages of a list: its numbers, of which there is at least one, or none for `-`.
pub fn parse_pages(alloc: Global, fields: Fields) -> Result<Option<Nums>, Memory>
    ensures { IfOk result (λ found. found ≡ pages_of fields.entry) }
{
    match fields.reborrow().single() {
        Some(field) if is_word(field, b"-") => Ok(Some(Nums::of(Vec::new(alloc)))),
        _ => parse_some_numbers(alloc, fields, 1 << 32),
    }
}

/// Returns the numbers before the first field `missing`, and the fields after that field.
fn numbers_until_missing<'a>(
    alloc: Global,
    fields: Fields<'a>,
) -> Result<Option<(Vec<u32>, Fields<'a>)>, Memory>
    ensures { IfOk result (λ found.
        option_map (λ found. (found.0.items, found.1)) found ≡ until_missing fields.entry) }
{
    let mut numbers = Vec::new(alloc);
    let mut left = fields;
    while let Some((field, rest)) = left.split_first() {
        if is_word(field, b"missing") {
            return Ok(Some((numbers, rest)));
        }
        let Some(number) = parse_u32(field) else {
            return Ok(None);
        };
        numbers.push(number)?;
        left = rest;
    }
    Ok(None)
}

/// Returns the pages of the list before the field `missing`, and the fields after that field.
pub fn pages_until_missing<'a>(
    alloc: Global,
    fields: Fields<'a>,
) -> Result<Option<(Nums, Fields<'a>)>, Memory>
    ensures { IfOk result (λ found. found ≡ pages_until_missing_of fields.entry) }
{
    if let Some(rest) = fields.reborrow().after_word(b"-") {
        return match rest.after_word(b"missing") {
            Some(rest) => Ok(Some((Nums::of(Vec::new(alloc)), rest))),
            None => Ok(None),
        };
    }
    let Some((numbers, rest)) = numbers_until_missing(alloc, fields)? else {
        return Ok(None);
    };
    if numbers.is_empty() {
        return Ok(None);
    }
    Ok(Some((Nums::of(numbers), rest)))
}
