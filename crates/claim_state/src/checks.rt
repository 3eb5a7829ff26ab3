//! The guards of each event.
ghost use Rattle.std.specs.Prelude.{◌≡◌, ℕ, ◌<◌, ◌≤◌, ◌+◌, ◌↔◌, All, Some, length, IfErr, IfOk, IsTrue, is_some};
ghost use Rattle.summary_rows.specs.Layout.{first_of, outer_of, row_size};
ghost use Rattle.call_lists.specs.Lists.{Names};
ghost use Rattle.claim_rows.specs.Placed.{is_in_row};
ghost use Rattle.claim_core.specs.Bits.{HasBit, Bit, IsSetIn};
ghost use Rattle.claim_core.specs.System.{in_row, in_callee};
ghost use Rattle.claim_core.specs.Machine.{seen, Claim, Read, Join, Wake, Release, Drop};
ghost use Rattle.claim_core.specs.Guards.{IsFinished};
ghost use Rattle.claim_board.specs.Told.{bodies_in, words_in};
ghost use Rattle.flow_bits.specs.Words.{word};
ghost use Rattle.claim_state.specs.State.{IsState, IsAccepted, IsRefused, IsNoHolder, system_in, workers_of, claims_of};

use crate::event::{ApplyFault, Guard};
use crate::places::{first_word, has_word, one_has_word, word_count};
use crate::state::ClaimState;
use body_summaries::row_words;
use spark_base::{BodyNo, NoMemory, WordNo};
use summary_rows::{Rows, Words};

impl<'a> ClaimState<'a> {
    // The body that a worker holds.
    fn holder(&self, worker: u32) -> Result<BodyNo, ApplyFault>
        requires { IsState self.now }
        ensures worker { IfOk result (λ b. worker < workers_of self.now) }
        ensures holds { IfOk result (λ b. ((claims_of self.now).workers worker).holds ≡ Some b.0) }
        ensures body { IfOk result (λ b. b.0 < length self.now.layout.now.outer) }
        ensures refused { IfErr result (λ f. IsNoHolder f worker self.now) }
    {
        if !self.board.has_worker(worker) {
            return Err(ApplyFault::Illegal {
                guard: Guard::NoWorker,
            });
        }
        let Some(b) = self.board.held_by(worker) else {
            return Err(ApplyFault::Illegal { guard: Guard::Idle });
        };
        Ok(BodyNo(b))
    }

    pub(crate) fn may_claim(&self, worker: u32, body: BodyNo) -> Result<(), ApplyFault>
        requires { IsState self.now }
        ensures accepted { IfOk result (λ _. IsAccepted (Claim worker body.0) self.now) }
        ensures worker { IfOk result (λ _. worker < workers_of self.now) }
        ensures body { IfOk result (λ _. body.0 < bodies_in self.now.board) }
        ensures refused { IfErr result (λ f. IsRefused f (Claim worker body.0) self.now) }
    {
        if !self.board.has_worker(worker) {
            return Err(ApplyFault::Illegal {
                guard: Guard::NoWorker,
            });
        }
        if self.board.held_by(worker).is_some() {
            return Err(ApplyFault::Illegal { guard: Guard::Busy });
        }
        if !self.board.is_free(body) {
            return Err(ApplyFault::Illegal {
                guard: Guard::NotDirty,
            });
        }
        Ok(())
    }

    pub(crate) fn may_read(&self, worker: u32, word: WordNo) -> Result<(), ApplyFault>
        requires { IsState self.now }
        ensures accepted { IfOk result (λ _. IsAccepted (Read worker word.0) self.now) }
        ensures worker { IfOk result (λ _. worker < workers_of self.now) }
        ensures word { IfOk result (λ _. word.0 < words_in self.now.board) }
        ensures refused { IfErr result (λ f. IsRefused f (Read worker word.0) self.now) }
    {
        let held = self.holder(worker)?;
        if !self.is_of_callee(held, word) {
            return Err(ApplyFault::Illegal {
                guard: Guard::NotCallee,
            });
        }
        Ok(())
    }

    // The body is that which the worker holds.
    pub(crate) fn may_join(
        &self,
        worker: u32,
        word: WordNo,
        bits: u64,
    ) -> Result<BodyNo, ApplyFault>
        requires { IsState self.now }
        ensures accepted { IfOk result (λ _. IsAccepted (Join worker word.0 bits) self.now) }
        ensures worker { IfOk result (λ _. worker < workers_of self.now) }
        ensures word { IfOk result (λ _. word.0 < words_in self.now.board) }
        ensures holds { IfOk result (λ b. ((claims_of self.now).workers worker).holds ≡ Some b.0) }
        ensures body { IfOk result (λ b. b.0 < length self.now.layout.now.outer) }
        ensures refused { IfErr result (λ f. IsRefused f (Join worker word.0 bits) self.now) }
    {
        let held = self.holder(worker)?;
        if !has_word(self.layout, held, word) {
            return Err(ApplyFault::Illegal {
                guard: Guard::NotOwn,
            });
        }
        let Ok(words) = self.equation_words(worker, held) else {
            return Err(ApplyFault::NoMemory);
        };
        let own = words.as_slice()[(word.0 - first_word(self.layout, held)) as usize];
        if bits | own != own {
            return Err(ApplyFault::Illegal {
                guard: Guard::NotCovered,
            });
        }
        Ok(held)
    }

    pub(crate) fn may_wake(&self, worker: u32, body: BodyNo) -> Result<(), ApplyFault>
        requires { IsState self.now }
        ensures accepted { IfOk result (λ _. IsAccepted (Wake worker body.0) self.now) }
        ensures worker { IfOk result (λ _. worker < workers_of self.now) }
        ensures body { IfOk result (λ _. body.0 < bodies_in self.now.board) }
        ensures refused { IfErr result (λ f. IsRefused f (Wake worker body.0) self.now) }
    {
        self.holder(worker)?;
        if !self.board.owes(worker, body) {
            return Err(ApplyFault::Illegal {
                guard: Guard::NotOwed,
            });
        }
        Ok(())
    }

    pub(crate) fn may_release(&self, worker: u32) -> Result<(), ApplyFault>
        requires { IsState self.now }
        ensures accepted { IfOk result (λ _. IsAccepted (Release worker) self.now) }
        ensures worker { IfOk result (λ _. worker < workers_of self.now) }
        ensures refused { IfErr result (λ f. IsRefused f (Release worker) self.now) }
    {
        let held = self.holder(worker)?;
        if !self.board.owes_none(worker) {
            return Err(ApplyFault::Illegal {
                guard: Guard::StillOwed,
            });
        }
        if self.board.is_dirty(held) {
            return Ok(());
        }
        match self.is_finished(worker, held) {
            Err(_) => Err(ApplyFault::NoMemory),
            Ok(true) => Ok(()),
            Ok(false) => Err(ApplyFault::Illegal {
                guard: Guard::Unfinished,
            }),
        }
    }

    pub(crate) fn may_drop(&self, worker: u32) -> Result<(), ApplyFault>
        requires { IsState self.now }
        ensures accepted { IfOk result (λ _. IsAccepted (Drop worker) self.now) }
        ensures worker { IfOk result (λ _. worker < workers_of self.now) }
        ensures refused { IfErr result (λ f. IsRefused f (Drop worker) self.now) }
    {
        self.holder(worker)?;
        Ok(())
    }

    // Whether a word is in the row of a callee of a body.
    fn is_of_callee(&self, b: BodyNo, w: WordNo) -> bool
        requires state { IsState self.now }
        requires body { b.0 < length self.now.layout.now.outer }
        ensures { IsTrue result ↔ IsTrue (in_callee (system_in self.now) b.0 w.0) }
    {
        one_has_word(self.layout, self.callees[b.0 as usize].as_slice(), w)
    }

    // The words of the row of a body, by its equation over what a worker read.
    fn equation_words(&self, worker: u32, b: BodyNo) -> Result<Words, NoMemory>
        requires state { IsState self.now }
        requires worker { worker < workers_of self.now }
        requires body { b.0 < length self.now.layout.now.outer }
        ensures size { IfOk result (λ v. length v ≡ row_size (length (outer_of self.now.layout.now b.0))) }
        ensures bits { IfOk result (λ v. (w k : ℕ) → w < length v → k < 64 → HasBit (word v w) k
            ↔ (system_in self.now).equation (IsSetIn (seen ((claims_of self.now).workers worker)))
            (record { word = first_of self.now.layout.now b.0 + w; place = k })) }
    {
        let rows = Rows {
            layout: self.layout.copy(self.alloc)?,
            words: Words::from_vec(self.board.seen(self.alloc, worker)?),
        };
        let words = row_words(self.alloc, self.program, b, &rows)?;
        Ok(words)
    }

    // Whether a worker read each word of the rows of all callees.
    fn has_read_callees(&self, worker: u32, callees: &[BodyNo]) -> bool
        requires state { IsState self.now }
        requires worker { worker < workers_of self.now }
        requires callees { All (λ c. c.0 < length self.now.layout.now.outer) callees.now }
        ensures { IsTrue result ↔ ((c w : ℕ) → Names callees.now c → IsTrue (is_in_row self.now.layout.now c w)
            → IsTrue (is_some (((claims_of self.now).workers worker).reads w))) }
    {
        for c in callees {
            let first = first_word(self.layout, *c);
            if !self
                .board
                .has_read(worker, first, word_count(self.layout, *c))
            {
                return false;
            }
        }
        true
    }

    // Whether a worker read each word of each callee of a body, and joined each bit that follows for it.
    fn is_finished(&self, worker: u32, b: BodyNo) -> Result<bool, NoMemory>
        requires state { IsState self.now }
        requires worker { worker < workers_of self.now }
        requires body { b.0 < length self.now.layout.now.outer }
        ensures { IfOk result (λ r. IsTrue r ↔ IsFinished (system_in self.now) b.0 ((claims_of self.now).workers worker)) }
    {
        if !self.has_read_callees(worker, self.callees[b.0 as usize].as_slice()) {
            return Ok(false);
        }
        let words = self.equation_words(worker, b)?;
        let joined = self.has_joined(worker, b, words.as_slice());
        Ok(joined)
    }

    // Whether a worker joined all bits of the words of its body's row.
    fn has_joined(&self, worker: u32, b: BodyNo, words: &[u64]) -> bool
        requires state { IsState self.now }
        requires worker { worker < workers_of self.now }
        requires body { b.0 < length self.now.layout.now.outer }
        requires size { length words.now ≡ row_size (length (outer_of self.now.layout.now b.0)) }
        requires bits { (w k : ℕ) → w < length words.now → k < 64 → HasBit (word words.now w) k
            ↔ (system_in self.now).equation (IsSetIn (seen ((claims_of self.now).workers worker)))
            (record { word = first_of self.now.layout.now b.0 + w; place = k }) }
        ensures { IsTrue result ↔ ((x : Bit) → IsTrue (in_row (system_in self.now) b.0 x.word)
            → (system_in self.now).equation (IsSetIn (seen ((claims_of self.now).workers worker))) x
            → IsSetIn ((claims_of self.now).workers worker).joined x) }
    {
        self.board
            .has_joined(worker, first_word(self.layout, b), words)
    }
}
