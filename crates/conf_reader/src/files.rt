ghost use Rattle.std.specs.Prelude.{◌≡◌, ◌<◌, ◌+◌, ◌^◌, ◌∷◌, [], ℕ, IfOk};
ghost use Rattle.conf_rules.specs.Recorded.{Recorded};
ghost use Rattle.conf_rules.specs.Sources.{size_limit};
ghost use Rattle.mux_outside.specs.Counts.{HasCause};
ghost use Rattle.mux_outside.specs.Files.{NotesReading};
ghost use Rattle.conf_reader.specs.Known.{RecordsFiles};
ghost use Rattle.conf_reader.specs.Left.{IsFound};
ghost use Rattle.conf_reader.specs.Looking.{FileFails};

use conf_rules::MAX_FILE;
use mux_outside::{FileError, Files};
use ssh_fields::Text;

/// What a path was found to hold.
#[derive(Drop)]
pub enum FoundFile {
    Nothing,
    TooLarge,
    Holds(Text),
}

// How many bytes a file may have. It stands apart for its proof alone, which unfolds the limit.
#[tactic(auto, unfolding(conf_rules::specs::Sources::size_limit))]
fn size_limit() -> usize
    ensures limit { result ≡ size_limit }
    ensures small { result < 2 ^ 32 }
{
    MAX_FILE
}

/// What a path holds.
pub fn read_file<F: Files>(path: &[u8], files: &mut F) -> Result<FoundFile, FileError>
    ensures found { (recorded : Recorded) → RecordsFiles (F.recorded files.old) recorded
        → IfOk result (λ found. IsFound found (recorded.content path.now)) }
    ensures cause { HasCause result (F.faults files.old) (F.faults files.new) }
    ensures failed { FileFails (path.now ∷ []) result (F.failed files.old) (F.failed files.new) }
    ensures noted { NotesReading result path.now (size_limit + 1) (F.readings files.old)
        (F.readings files.new) }
    ensures recorded { F.recorded files.new ≡ F.recorded files.old }
{
    let text = match files.read(path, size_limit() + 1)? {
        None => return Ok(FoundFile::Nothing),
        Some(text) => text,
    };
    if text.as_bytes().len() > size_limit() {
        return Ok(FoundFile::TooLarge);
    }
    Ok(FoundFile::Holds(text))
}
