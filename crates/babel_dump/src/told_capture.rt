//! What there is to know of a capture of which no sender is refused.
use crate::collected::{notes_json, sender_notes_json};
use crate::done::ToldSender;
use crate::format::Format;
use crate::key_name::file_output;
use crate::led::push_led;
use crate::notes::Notes;
use crate::origins_job::Origins;
use crate::read_senders::Captured;
use crate::run_fault::Side;
use crate::spelling::Spelling;
use std::alloc::{AllocError, Global};

/// What there is to know of a capture, and of each of its senders.
#[derive(Drop)]
pub struct ToldCapture {
    pub(crate) side: Side,
    pub(crate) notes: Notes,
    pub(crate) senders: Vec<ToldSender>,
}

impl ToldCapture {
    /// Of a capture with these senders.
    pub(crate) fn new(
        alloc: Global,
        captured: &Captured<'_>,
        senders: Vec<ToldSender>,
    ) -> Result<ToldCapture, AllocError> {
        let mut notes = Notes::new(alloc)?;
        captured.note(&mut notes)?;
        Ok(ToldCapture {
            side: captured.side,
            notes,
            senders,
        })
    }

    /// The notes about it, and about its senders, as JSON: objects.
    fn json(&mut self, alloc: Global, spelling: Spelling) -> Result<Vec<u8>, AllocError> {
        let mut text = notes_json(alloc, &mut self.notes)?;
        let mut notes = Notes::new(alloc)?;
        for sender in &self.senders {
            if let Ok(read) = sender.read {
                notes.gather_sender(self.side, read)?;
                text.append(&mut sender_notes_json(alloc, &mut notes, spelling, sender)?)?;
            }
        }
        Ok(text)
    }
}

/// What there is to know of the captures on both sides.
#[derive(Drop)]
pub struct ToldCaptures {
    pub(crate) list: Vec<ToldCapture>,
    /// The notes as JSON, if the output is that and has them: objects, each with the name of the
    /// file first where there are several on a side.
    pub(crate) json: Vec<u8>,
}

impl ToldCaptures {
    /// Of no capture.
    pub(crate) fn none(alloc: Global) -> ToldCaptures {
        ToldCaptures {
            list: Vec::new(alloc),
            json: Vec::new(alloc),
        }
    }

    /// Of these captures.
    pub(crate) fn of(
        alloc: Global,
        origins: &Origins,
        mut list: Vec<ToldCapture>,
    ) -> Result<ToldCaptures, AllocError> {
        let format = &origins.left.format;
        let mut json = Vec::new(alloc);
        if let Format::Json(style) = format {
            for (place, capture) in list.iter_mut().enumerate() {
                if !origins.left.quiet {
                    let notes = capture.json(alloc, style.spelling)?;
                    let lead = lead(alloc, format, origins.name_at(place))?;
                    push_led(&mut json, format, &lead, &notes)?;
                }
            }
        }
        Ok(ToldCaptures { list, json })
    }
}

/// What each object begins with that is about a capture with this name, if it is named.
fn lead(alloc: Global, format: &Format, name: Option<&str>) -> Result<Vec<u8>, AllocError> {
    let mut lead = Vec::new(alloc);
    lead.push(b'{')?;
    if let Some(name) = name {
        lead.append(&mut file_output(alloc, format, name)?)?;
        lead.push(b',')?;
    }
    Ok(lead)
}
