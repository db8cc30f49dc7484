//! The edits that wait for their done.
ghost use Rattle.std.specs.Prelude.{◌≡◌, ◌≤◌, length, IfOk};
ghost use Rattle.trial_field.specs.Log.{HasNoZero, IsBatch, batch_of, no_edits};
ghost use Rattle.trial_field.specs.declared.batch_view.TheConstants.{MAX_STRING, MAX_PREEDIT};

use std::alloc::Global;
use std::marker::Model;
use trial_field::BatchView;
use wio_core::NoMemory;

// The edits since the last done, as `zwp_text_input_v3` tells them one by one. It takes its memory
// when it is made.
#[derive(Debug, Drop)]
pub(crate) struct Pending {
    before: u32,
    after: u32,
    string: String,
    preedit: String,
    begin: i32,
    end: i32,
}

impl Model for Pending {
    ghost use Rattle.trial_field.specs.Log.{Batch};

    ghost Value = { Batch };

    ghost use Rattle.client_side.specs.Kept.{edits_of, IsReady};

    ghost view = { edits_of };

    ghost invariant = { IsReady };
}

impl Pending {
    // No edits, and room for the longest texts.
    pub(crate) fn new(alloc: Global) -> Result<Pending, NoMemory>
        ensures { IfOk result (λ pending. pending ≡ no_edits) }
    {
        let string = String::with_capacity(alloc, trial_field::MAX_STRING)?;
        let preedit = String::with_capacity(alloc, trial_field::MAX_PREEDIT)?;
        Ok(Pending {
            before: 0,
            after: 0,
            string,
            preedit,
            begin: 0,
            end: 0,
        })
    }

    // `zwp_text_input_v3.commit_string`
    pub(crate) fn set_string(&mut self, text: &str)
        requires fits { length text.now ≤ MAX_STRING }
        requires clean { HasNoZero text.now }
        ensures { self.new ≡ record self.old { string = text.now } }
    {
        self.string.clear();
        let _ = self.string.push_str(text);
    }

    // `zwp_text_input_v3.preedit_string`
    pub(crate) fn set_preedit(&mut self, text: &str, begin: i32, end: i32)
        requires fits { length text.now ≤ MAX_PREEDIT }
        requires clean { HasNoZero text.now }
        ensures { self.new ≡ record self.old { preedit = text.now; begin = begin; end = end } }
    {
        self.preedit.clear();
        let _ = self.preedit.push_str(text);
        self.begin = begin;
        self.end = end;
    }

    // `zwp_text_input_v3.delete_surrounding_text`
    pub(crate) fn set_deletion(&mut self, before: u32, after: u32)
        ensures { self.new ≡ record self.old { before = before; after = after } }
    {
        self.before = before;
        self.after = after;
    }

    // No edits.
    pub(crate) fn clear(&mut self)
        ensures { self.new ≡ no_edits }
    {
        self.before = 0;
        self.after = 0;
        self.string.clear();
        self.preedit.clear();
        self.begin = 0;
        self.end = 0;
    }

    // The edits as one batch.
    pub(crate) fn view(&self) -> BatchView<'_>
        ensures value { batch_of result ≡ self.now }
        ensures batch { IsBatch result }
    {
        BatchView {
            before: self.before,
            after: self.after,
            string: &self.string,
            preedit: &self.preedit,
            begin: self.begin,
            end: self.end,
        }
    }
}
