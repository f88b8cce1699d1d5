// The directory's state and an answer's number as words, for calls that programs in other languages make.
#![tactic(auto)]

ghost use Rattle.std.specs.Prelude.{◌≡◌};
ghost use Rattle.laws.specs.Said.{number};
ghost use Rattle.bindings.specs.Calls.{said_by};
ghost use Rattle.map_words.specs.Words.{state_of, words_of};

use directory::Directory;
use numbered::Numbered;

// The state of three words: slots used, the map's count, the last birth number spent.
pub fn state_of(words: [u64; 3]) -> Directory
    ensures { result ≡ state_of words }
{
    Directory {
        used: words[0] as usize,
        count: words[1],
        last: words[2],
    }
}

// The three words of a state.
pub fn words_of(d: Directory) -> [u64; 3]
    ensures { result ≡ words_of d }
{
    [d.used as u64, d.count, d.last]
}

// Document 01's number of an answer.
pub fn number_of<E: Numbered>(answer: Result<Option<u64>, E>) -> u64
    ensures { result ≡ number (said_by E.number answer) }
{
    match answer {
        Err(e) => e.number() as u64,
        Ok(_) => 0,
    }
}
