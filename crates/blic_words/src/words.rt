// From arguments to what they ask for.
ghost use Rattle.std.specs.Prelude.{◌≡◌, IfOk, IfSome, map, option_map, string_bytes};
ghost use Rattle.blic_words.specs.Commands.{solve as solve_form, certify as certify_form, verify as verify_form, exercise as exercise_form};
ghost use Rattle.blic_words.specs.Requests.{IsInRange, asked, solve_asked, certify_asked, verify_asked, exercise_asked, request_by, request_of};

use crate::command::{command, given};
use crate::number::number_in;
use crate::options::Options;
use crate::request::Request;
use blic_basic::NoMem;
use std::alloc::{AllocError, Global};

/// The greatest number of pairs of variables that `exercise` takes.
const MOST_EXERCISE: u32 = 500;

/// What the arguments ask for, `None` if they don't fit. The first one names the command. The only error
/// is out of memory.
pub fn parse<'w>(alloc: Global, words: &'w [String]) -> Result<Option<Request<'w>>, NoMem>
    ensures exact { IfOk result (λ asked. option_map request_by asked ≡ request_of (map string_bytes words.entry.now)) }
    ensures ranges { IfOk result (λ asked. IfSome asked (λ request. IsInRange (request_by request))) }
{
    Ok(read(alloc, words)?)
}

// What the arguments ask for, by the command that the first one names.
fn read<'w>(alloc: Global, words: &'w [String]) -> Result<Option<Request<'w>>, AllocError>
    ensures { IfOk result (λ request. option_map request_by request ≡ request_of (map string_bytes words.entry.now)) }
{
    match words {
        [name, ..] if name.as_str() == "solve" => solve(alloc, words),
        [name, ..] if name.as_str() == "certify" => certify(alloc, words),
        [name, ..] if name.as_str() == "verify" => verify(alloc, words),
        [name, ..] if name.as_str() == "exercise" => exercise(alloc, words),
        _ => Ok(None),
    }
}

// solve FILE --nodes N --pairs P
fn solve<'w>(alloc: Global, words: &'w [String]) -> Result<Option<Request<'w>>, AllocError>
    ensures { IfOk result (λ request. option_map request_by request ≡ asked solve_form solve_asked (map string_bytes words.entry.now)) }
{
    let command = command(alloc, "solve", &["FILE"], &["nodes", "pairs"], &[])?;
    let Some((texts, options)) = given(alloc, command, &["FILE"], words)? else {
        return Ok(None);
    };
    Ok(solve_request(&texts, options))
}

// What `solve` asks for by its operand's text, if there is one.
fn solve_request<'w>(texts: &[&'w str], options: Options) -> Option<Request<'w>>
    ensures { option_map request_by result ≡ solve_asked (map (λ t. t.now) texts.entry.now) options }
{
    match texts {
        [file] => Some(Request::Solve { file, options }),
        _ => None,
    }
}

// certify FILE --nodes N --pairs P --seed HEX --repeat K --talk
fn certify<'w>(alloc: Global, words: &'w [String]) -> Result<Option<Request<'w>>, AllocError>
    ensures { IfOk result (λ request. option_map request_by request ≡ asked certify_form certify_asked (map string_bytes words.entry.now)) }
{
    let command = command(
        alloc,
        "certify",
        &["FILE"],
        &["nodes", "pairs", "seed", "repeat"],
        &["talk"],
    )?;
    let Some((texts, options)) = given(alloc, command, &["FILE"], words)? else {
        return Ok(None);
    };
    Ok(certify_request(&texts, options))
}

// What `certify` asks for by its operand's text, if there is one.
fn certify_request<'w>(texts: &[&'w str], options: Options) -> Option<Request<'w>>
    ensures { option_map request_by result ≡ certify_asked (map (λ t. t.now) texts.entry.now) options }
{
    match texts {
        [file] => Some(Request::Certify { file, options }),
        _ => None,
    }
}

// verify FILE ADDR --seed HEX --repeat K --talk
fn verify<'w>(alloc: Global, words: &'w [String]) -> Result<Option<Request<'w>>, AllocError>
    ensures { IfOk result (λ request. option_map request_by request ≡ asked verify_form verify_asked (map string_bytes words.entry.now)) }
{
    let command = command(
        alloc,
        "verify",
        &["FILE", "ADDR"],
        &["seed", "repeat"],
        &["talk"],
    )?;
    let Some((texts, options)) = given(alloc, command, &["FILE", "ADDR"], words)? else {
        return Ok(None);
    };
    Ok(verify_request(&texts, options))
}

// What `verify` asks for by its operands' texts, if there are two.
fn verify_request<'w>(texts: &[&'w str], options: Options) -> Option<Request<'w>>
    ensures { option_map request_by result ≡ verify_asked (map (λ t. t.now) texts.entry.now) options }
{
    match texts {
        [file, address] => Some(Request::Verify {
            file,
            address,
            options,
        }),
        _ => None,
    }
}

// exercise N --seed HEX
fn exercise<'w>(alloc: Global, words: &'w [String]) -> Result<Option<Request<'w>>, AllocError>
    ensures { IfOk result (λ request. option_map request_by request ≡ asked exercise_form exercise_asked (map string_bytes words.entry.now)) }
{
    let command = command(alloc, "exercise", &["N"], &["seed"], &[])?;
    let Some((texts, options)) = given(alloc, command, &["N"], words)? else {
        return Ok(None);
    };
    Ok(exercise_request(&texts, options))
}

// What `exercise` asks for by its operand's text, if there is one, a number from 1 to 500.
fn exercise_request<'w>(texts: &[&str], options: Options) -> Option<Request<'w>>
    ensures { option_map request_by result ≡ exercise_asked (map (λ t. t.now) texts.entry.now) options }
{
    let [number] = texts else {
        return None;
    };
    let pairs = number_in(1, MOST_EXERCISE, number)?;
    Some(Request::Exercise { pairs, options })
}
