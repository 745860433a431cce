//! What the words of the command line ask for.
ghost use Rattle.std.specs.Prelude.{◌≡◌, ℕ, List, MatchOption, map};
ghost use Rattle.std.specs.String.{string_bytes};
ghost use Rattle.ghes_replay.specs.Task.{Task as Asked, Replay as AskedReplay, Check as AskedCheck, Decode as AskedDecode, IsTask, file_of, task_seen};
ghost use Rattle.ghes_replay.specs.Refusal.{refused_name};

use crate::{InputFile, Refusal};

/// What the words of the command line ask for, with the names of the files.
#[derive(Clone, Copy)]
pub(crate) enum Task<'a> {
    /// To replay a script on a table, and on an injection table unless its word is `-`.
    Replay {
        hest: &'a str,
        einj: &'a str,
        script: &'a str,
    },
    /// To list a table, and an injection table unless its word is `-`.
    Check {
        hest: &'a str,
        einj: &'a str,
    },
    /// To print a block.
    Decode {
        block: &'a str,
    },
}

impl<'a> Task<'a> {
    // The name of its file of this kind, empty where it has none.
    fn name(self, kind: InputFile) -> &'a str
        ensures { result.now ≡ file_of (task_seen self.entry) kind }
    {
        match self {
            Task::Replay { hest, einj, script } => match kind {
                InputFile::Hest => hest,
                InputFile::Einj => einj,
                InputFile::Script => script,
                InputFile::Block => "",
            },
            Task::Check { hest, einj } => match kind {
                InputFile::Hest => hest,
                InputFile::Einj => einj,
                InputFile::Script | InputFile::Block => "",
            },
            Task::Decode { block } => match kind {
                InputFile::Block => block,
                InputFile::Hest | InputFile::Einj | InputFile::Script => "",
            },
        }
    }

    /// The name of the file in the line of a refusal.
    pub(crate) fn refused_name(self, refusal: Refusal) -> &'a str
        ensures { result.now ≡ refused_name (task_seen self.entry) refusal }
    {
        match refusal {
            Refusal::Load(file, _) => self.name(file),
            _ => "",
        }
    }
}

// The words for the tables and the script in the words `replay HEST EINJ SCRIPT`.
fn replay_names(words: &[String]) -> Option<(&str, &str, &str)>
    ensures { MatchOption result
        ((hest einj script : List ℕ) → IsTask (map string_bytes words.now) (AskedReplay hest einj script) → ⊥)
        (λ names. IsTask (map string_bytes words.now) (AskedReplay names.0.now names.1.now names.2.now)) }
{
    let [command, hest, einj, script] = words else {
        return None;
    };
    if command.as_str() != "replay" {
        return None;
    }
    Some((hest.as_str(), einj.as_str(), script.as_str()))
}

// The words for the tables in the words `check HEST EINJ`.
fn check_names(words: &[String]) -> Option<(&str, &str)>
    ensures { MatchOption result
        ((hest einj : List ℕ) → IsTask (map string_bytes words.now) (AskedCheck hest einj) → ⊥)
        (λ names. IsTask (map string_bytes words.now) (AskedCheck names.0.now names.1.now)) }
{
    let [command, hest, einj] = words else {
        return None;
    };
    if command.as_str() != "check" {
        return None;
    }
    Some((hest.as_str(), einj.as_str()))
}

// The name of the block in the words `decode BLOCK`.
fn decode_name(words: &[String]) -> Option<&str>
    ensures { MatchOption result
        ((block : List ℕ) → IsTask (map string_bytes words.now) (AskedDecode block) → ⊥)
        (λ name. IsTask (map string_bytes words.now) (AskedDecode name.now)) }
{
    let [command, block] = words else {
        return None;
    };
    if command.as_str() != "decode" {
        return None;
    }
    Some(block.as_str())
}

/// What the words ask for, if they are a form of the command line.
pub(crate) fn task_of(words: &[String]) -> Option<Task<'_>>
    ensures { MatchOption result
        ((task : Asked) → IsTask (map string_bytes words.now) task → ⊥)
        (λ task. IsTask (map string_bytes words.now) (task_seen task)) }
{
    if let Some((hest, einj, script)) = replay_names(words) {
        return Some(Task::Replay { hest, einj, script });
    }
    if let Some((hest, einj)) = check_names(words) {
        return Some(Task::Check { hest, einj });
    }
    match decode_name(words) {
        Some(block) => Some(Task::Decode { block }),
        None => None,
    }
}
