//! Laws of what threads report. Each is the contract of a function that does nothing; a proof of another crate cites it by
//! calling the function.

ghost use Rattle.std.specs.Prelude.{ℕ, ℤ, List, ◌≡◌, ◌+◌, ◌<◌, ◌^◌, ◌∷◌, ◌++◌, [], length, drop};
ghost use Rattle.puffin_data.specs.declared.data.form.Form.{Form};
ghost use Rattle.puffin_data.specs.Forest.Spelling.{size_offset};
ghost use Rattle.puffin_data.specs.Forest.{Forest};
ghost use Rattle.puffin_data.specs.Honesty.{StreamFacts, AreHonestFacts};
ghost use Rattle.puffin_data.specs.Forest.Tour.{Event, Open, Close};
ghost use Rattle.puffin_data.specs.Forest.Words.{word_size, open_after};
ghost use Rattle.puffin_threads.specs.Thread.Calls.{open_offsets};

/// Honest infos of the same bytes in the same form are equal. So what a thread reports is what a successful
/// [`puffin_data::data::StreamInfo::parse`] of the bytes returns.
pub fn one_record()
    ensures { (a b : StreamFacts) (f g : Forest) → AreHonestFacts a f → AreHonestFacts b g →
        length a.bytes < 2 ^ 63 → a.form ≡ b.form → a.bytes ≡ b.bytes → a ≡ b }
{}

/// The offsets of the open scopes are listed innermost first, one for each. A scope that begins adds its offset at the front,
/// and a scope that ends removes the first offset.
pub fn open_scopes()
    ensures count { (form : Form) (word : List Event) →
        length (open_offsets form word) ≡ open_after 0 word }
    ensures begun { (form : Form) (word : List Event) (id : ℕ) (text : List ℕ) (start : ℤ) →
        open_offsets form (word ++ (Open id text start ∷ []))
        ≡ (word_size form word + size_offset form text) ∷ open_offsets form word }
    ensures ended { (form : Form) (word : List Event) (stop : ℤ) →
        open_offsets form (word ++ (Close stop ∷ [])) ≡ drop 1 (open_offsets form word) }
{}
