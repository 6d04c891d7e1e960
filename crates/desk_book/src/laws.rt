//! Laws of journals.

ghost use Rattle.std.specs.Prelude.{◌≡◌, ◌≤◌, List, Result, Some, ℕ, length};
ghost use Rattle.desk_line.specs.Served.{Batch, IsServed, LineState};
ghost use Rattle.desk_book.specs.Answers.{IsDeskAnswer, IsDeskFront, all_durable};
ghost use Rattle.desk_book.specs.Journals.{AreDesksAlike, IsJournal, IsReadAs, IsReadBack, IsReadBeyond, KeepsJournal};
ghost use Rattle.desk_book.specs.declared.desk.Desk.{Desk};
ghost use Rattle.desk_book.specs.declared.replaying.ReadFault.{ReadFault};
ghost use Rattle.desk_book.specs.declared.replaying.Replayed.{Replayed};

/// A journal is read as the desk that has written it; and whatever a crash leaves behind it, all that was written is read.
pub fn a_journal_is_read_as_it_was_written<J>()
    ensures whole { (judge : J) (bytes : List ℕ) (desk : Desk J) (result : Result (Replayed J) ReadFault)
        → IsJournal judge bytes (length bytes) desk → IsReadAs judge bytes result → IsReadBack desk (length bytes) result }
    ensures beginning { (judge : J) (bytes : List ℕ) (end : ℕ) (desk : Desk J) (result : Result (Replayed J) ReadFault)
        → IsJournal judge bytes end desk → IsReadAs judge bytes result → IsReadBeyond desk end result }
{}

/// What a desk that goes on with a journal keeps of calls makes a journal with it, and this desk has written it.
pub fn what_is_kept_is_a_journal<J>()
    ensures { (faults : J → List ℕ → List ℕ → List ℕ) (judge : J) (bytes : List ℕ) (desk : Desk J) (first now : LineState (Desk J))
        (batches : List (Batch (Desk J))) → IsJournal judge bytes (length bytes) desk → AreDesksAlike desk first.state
        → first.state.durable ≤ first.state.extent → first.kept ≡ Some bytes
        → IsServed (λ m bytes f. IsDeskFront m bytes f) (λ m call reply entry n. IsDeskAnswer faults m call reply entry n)
        all_durable (λ m. m.extent) first now batches → KeepsJournal judge now }
{}
