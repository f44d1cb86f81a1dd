// The options of the commands.
ghost use Rattle.std.specs.Prelude.{◌≡◌, option_map};
ghost use Rattle.clap.specs.Words.{first_of, found_of, rows_of};
ghost use Rattle.blic_words.specs.Options.{is_set as is_given, number_or as number_given, options_of, seed_in as seed_of, seed_or as seed_given, usual as usual_options};

use crate::number::number_in;
use clap::ArgMatches;

/// The greatest value of `--nodes`.
const MOST_NODES: u32 = 16_777_216;

/// The greatest value of `--pairs`.
const MOST_PAIRS: u32 = 33_554_432;

/// The greatest value of `--repeat`.
const MOST_REPEAT: u32 = 1_000;

/// What the options of a command say. A command without an option has its default.
#[derive(Clone, Copy, Debug, PartialEq, Eq)]
pub struct Options {
    /// `--nodes`: how many decisions (nodes of BDDs) solving may store, from 1 to 16,777,216.
    pub nodes: u32,
    /// `--pairs`: how many pairs (the product construction) solving may take over all binary nodes, from 1 to 33,554,432.
    pub pairs: u32,
    /// `--seed`: the seed of the draws (challenges); `None` if it isn't given.
    pub seed: Option<[u8; 32]>,
    /// `--repeat`: how often an answer is certified (a conversation each time), from 1 to 1,000, by default 1.
    pub repeat: u32,
    /// `--talk`: whether the frames of a conversation are printed.
    pub talk: bool,
}

impl Options {
    /// The defaults: what holds if no option is given.
    pub fn usual() -> Options
        ensures { result ≡ usual_options }
    {
        Options {
            nodes: 4_194_304,
            pairs: 16_777_216,
            seed: None,
            repeat: 1,
            talk: false,
        }
    }

    /// The options that were given, and the defaults of the others. `None` if a text is no number in its
    /// range or no seed.
    pub(crate) fn read(matches: &ArgMatches) -> Option<Options>
        ensures { result ≡ options_of (rows_of (found_of matches.now)) }
    {
        let usual = Options::usual();
        Some(Options {
            nodes: number_or(usual.nodes, 1, MOST_NODES, text_of(matches, "nodes"))?,
            pairs: number_or(usual.pairs, 1, MOST_PAIRS, text_of(matches, "pairs"))?,
            seed: seed_or(usual.seed, text_of(matches, "seed"))?,
            repeat: number_or(usual.repeat, 1, MOST_REPEAT, text_of(matches, "repeat"))?,
            talk: is_set(usual.talk, text_of(matches, "talk")),
        })
    }
}

/// The text that was given under a name.
pub(crate) fn text_of<'w>(matches: &ArgMatches<'w>, name: &str) -> Option<&'w str>
    ensures { option_map (λ t. t.now) result ≡ first_of name.now (rows_of (found_of matches.now)) }
{
    matches.get_str(name)
}

// The number of an option, or its default if it isn't given.
fn number_or(default: u32, low: u32, high: u32, text: Option<&str>) -> Option<u32>
    ensures { result ≡ number_given default low high (option_map (λ t. t.now) text.entry) }
{
    match text {
        None => Some(default),
        Some(text) => number_in(low, high, text),
    }
}

// The seed of an option, or its default if it isn't given.
fn seed_or(default: Option<[u8; 32]>, text: Option<&str>) -> Option<Option<[u8; 32]>>
    ensures { result ≡ seed_given default (option_map (λ t. t.now) text.entry) }
{
    match text {
        None => Some(default),
        Some(text) => Some(Some(seed_in(text)?)),
    }
}

// The 32 bytes that 64 hexadecimal digits write.
fn seed_in(text: &str) -> Option<[u8; 32]>
    ensures { result ≡ seed_of text.now }
{
    let mut seed = [0; 32];
    match hex::decode_to_slice(text.as_bytes(), &mut seed) {
        Ok(()) => Some(seed),
        Err(_) => None,
    }
}

// Whether a flag is given.
fn is_set(default: bool, text: Option<&str>) -> bool
    ensures { result ≡ is_given default (option_map (λ t. t.now) text.entry) }
{
    match text {
        Some(text) => text == "true",
        None => default,
    }
}
