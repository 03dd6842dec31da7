//! Takes one more line of an info text.

ghost use Rattle.std.specs.Prelude.{◌≡◌, map, option_map, IfOk, if◌then◌else◌};
ghost use Rattle.repo_ini.specs.Parts.{key_of, sections_of};
ghost use Rattle.repo_ini.specs.Reading.{step, opened, last_name, last_key};
ghost use Rattle.repo_ini.specs.States.{state_of, part_closed, part_with};

use crate::cuts::{cut_at, name_in, sum_in};
use crate::names::{is_before, is_key, is_name};
use crate::part::Part;
use crate::state::State;
use crate::values::value_of;
use base_text::{NoMemory, text_of};
use serde_json::Value;
use std::alloc::Global;

fn last_name(parts: &[Part]) -> &[u8]
    ensures { result.now ≡ last_name (sections_of parts.now) }
{
    match parts.last() {
        Some(part) => part.name.as_bytes(),
        None => b"backrest".as_slice(),
    }
}

fn last_key(keys: &[(String, Value)]) -> &[u8]
    ensures { result.now ≡ last_key (map key_of keys.now) }
{
    match keys.last() {
        Some(key) => key.0.as_bytes(),
        None => b"".as_slice(),
    }
}

// Begins a section.
fn open(alloc: Global, done: Vec<Part>, name: &[u8]) -> Result<Option<State>, NoMemory>
    ensures { IfOk result (λ o. option_map state_of o ≡ opened (sections_of done.items) name.now) }
{
    let Some(text) = text_of(name) else {
        return Ok(None);
    };
    if !is_name(name) {
        return Ok(None);
    }
    if !is_before(last_name(&done), name) {
        return Ok(None);
    }
    let part = Part::new(alloc, text)?;
    Ok(Some(State::Within(done, part)))
}

// Ends a section.
fn close(done: Vec<Part>, part: Part) -> Result<Option<State>, NoMemory>
    ensures { IfOk result (λ o. option_map state_of o ≡ part_closed done.items part) }
{
    let mut done = done;
    if part.keys.is_empty() {
        return Ok(None);
    }
    done.push(part)?;
    Ok(Some(State::Between(done)))
}

// Adds a key to a section.
fn add(
    alloc: Global,
    done: Vec<Part>,
    part: Part,
    key: &[u8],
    value: &[u8],
) -> Result<Option<State>, NoMemory>
    ensures { IfOk result (λ o. option_map state_of o ≡ part_with done.items part (key.now, value.now)) }
{
    let mut part = part;
    let Some(text) = text_of(key) else {
        return Ok(None);
    };
    if !is_key(key) {
        return Ok(None);
    }
    if !is_before(last_key(&part.keys), key) {
        return Ok(None);
    }
    let Some(value) = value_of(alloc, value)? else {
        return Ok(None);
    };
    part.add(alloc, text, value)?;
    Ok(Some(State::Within(done, part)))
}

fn when(holds: bool, state: State) -> Option<State>
    ensures { result ≡ (if holds then Some state else None) }
{
    if holds { Some(state) } else { None }
}

const NAME: &[u8; 10] = b"[backrest]";

const FORMAT: &[u8; 17] = b"backrest-format=5";

// The state after one more line, where a text can continue so.
pub(crate) fn step(alloc: Global, state: State, piece: &[u8]) -> Result<Option<State>, NoMemory>
    ensures { IfOk result (λ o. option_map state_of o ≡ step (state_of state) piece.now) }
{
    match state {
        State::Start => Ok(when(piece == NAME.as_slice(), State::Format)),
        State::Format => Ok(when(piece == FORMAT.as_slice(), State::Gap)),
        State::Gap => Ok(when(piece.is_empty(), State::Between(Vec::new(alloc)))),
        State::Between(done) => {
            if piece == NAME.as_slice() {
                return Ok(Some(State::Check(done)));
            }
            match name_in(piece) {
                Some(name) => open(alloc, done, name),
                None => Ok(None),
            }
        }
        State::Within(done, part) => {
            if piece.is_empty() {
                return close(done, part);
            }
            match cut_at(b'=', piece) {
                Some((key, value)) => add(alloc, done, part, key, value),
                None => Ok(None),
            }
        }
        State::Check(done) => match sum_in(piece) {
            Some(known) => Ok(Some(State::Closing(done, known))),
            None => Ok(None),
        },
        State::Closing(done, known) => Ok(when(piece.is_empty(), State::Over(done, known))),
        State::Over(_, _) => Ok(None),
    }
}
