ghost use Rattle.std.specs.Prelude.{◌≡◌, Ok, IfOk};
ghost use Rattle.partial_model.specs.Recording.{spelled_recording, recording_in};
ghost use Rattle.partial_state.specs.Recordings.{AnswersRecording, recording_of};

use crate::ops::Ops;
use crate::proof_error::ProofError;
use crate::reading::{read_changes, read_reads};
use crate::writing::{write_changes, write_reads, write_root, write_state};
use base_core::{Digest, Reader, Text, Writer};
use std::alloc::{AllocError, Global};
use text_store::PartialTexts;

/// A recording: the root of a state, reads and changes, and the texts of the state that these touch,
/// as far as whoever made it is to be believed.
#[derive(Drop)]
pub struct Proof {
    pub root: Digest,
    pub ops: Ops,
    pub state: PartialTexts,
}

impl Proof {
    /// The recording that some bytes spell. Time and memory grow with the bytes, whatever they
    /// claim, and each key, value and text is copied once.
    pub fn read(alloc: Global, bytes: &[u8]) -> Result<Proof, ProofError>
        ensures answer { AnswersRecording result bytes.now }
        ensures spelled { IfOk result (λ proof. bytes.now ≡ spelled_recording (recording_of proof)) }
    {
        let mut reader = Reader::new(bytes);
        let root = reader.digest()?;
        let reads = read_reads(alloc, &mut reader)?;
        let changes = read_changes(alloc, &mut reader)?;
        let state = PartialTexts::read_from(alloc, &mut reader)?;
        reader.end()?;
        let ops = Ops::of_parts(reads, changes);
        Ok(Proof { root, ops, state })
    }

    /// The bytes that spell the recording. The marks on its texts do not show.
    pub fn write(&self, alloc: Global) -> Result<Text, AllocError>
        ensures bytes { IfOk result (λ text. text ≡ spelled_recording (recording_of self.now)) }
        ensures again { IfOk result (λ text. recording_in text ≡ Ok (recording_of self.now)) }
    {
        let mut writer = Writer::new(alloc);
        write_root(&mut writer, &self.root.0)?;
        write_reads(&mut writer, self.ops.reads())?;
        write_changes(alloc, &mut writer, self.ops.changes())?;
        write_state(&mut writer, &self.state)?;
        Ok(writer.into_text())
    }
}
