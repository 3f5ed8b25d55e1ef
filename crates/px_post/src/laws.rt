//! Laws of the letters of a feeder.
ghost use Rattle.std.specs.Prelude.{◌≡◌, ◌+◌, ◌++◌, ◌∷◌, [], ℕ, List, length, slice_get, Some};
ghost use Rattle.px_post.specs.Letters.{Document, Letters, letters_of};
ghost use Rattle.px_post.specs.Mail.{AreNumbered, Way};
ghost use Rattle.px_post.specs.Sending.{Sending, HasPosted};

/// The letters of a feeder to a mailbox are numbered from 1.
pub fn letters_are_numbered()
    ensures { (f b : ℕ) (ds : List Document) → AreNumbered 0 (Letters f b ds) }
{}

/// A document more adds its own letters behind all others, numbered on.
pub fn a_document_adds_its_letters()
    ensures { (f b : ℕ) (ds : List Document) (d : Document) → Letters f b (ds ++ d ∷ []) ≡
        Letters f b ds ++
        letters_of f b (1 + length ds) (length (Letters f b ds)) d.route d.ids }
{}

/// A sender that has put nothing, and has nothing left, has posted no document.
pub fn a_new_sender_has_posted_nothing()
    ensures { (s : Sending) → s.documents ≡ 0 → s.left ≡ [] →
        ((b : ℕ) (w : Way) → slice_get s.ways b ≡ Some w → w.put ≡ []) → HasPosted s [] }
{}
