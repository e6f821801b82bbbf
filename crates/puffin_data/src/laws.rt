//! Laws of forests, their spellings and their walks, and of layouts. Each is the contract of a function that does nothing; a
//! proof of another crate cites it by calling the function.

ghost use Rattle.std.specs.Prelude.{Result, Ok, drop, map, IsTrue, ◌↔◌, List, ℕ, ℤ, ◌≡◌, ◌⊎◌, ◌+◌, ◌-◌, ◌++◌, ◌∷◌, [], ◌<◌, ◌≤◌, ◌^◌, ◌≤ℤ◌, ◌-ℤ◌, pos, negsuc, FitsSigned, length, max};
ghost use Rattle.std.specs.List.{All};
ghost use Rattle.std.specs.List.Sorted.{IsStrictlyIncreasing};
ghost use Rattle.std.specs.Str.{IsUtf8};
ghost use Rattle.std.specs.Int.{int_min, int_max, w64};
ghost use Rattle.byteorder.specs.Endian.{little_number};
ghost use Rattle.puffin_data.specs.Forest.{Forest, IsForest, empty, append};
ghost use Rattle.puffin_data.specs.Forest.Measures.{scope_count, height, least_start, greatest_stop};
ghost use Rattle.puffin_data.specs.Forest.Spelling.{spelling, Spells, begin_bytes, end_size, head_size};
ghost use Rattle.puffin_data.specs.Honesty.{StreamFacts, AreHonestFacts, joined_facts, AreUnlike};
ghost use Rattle.puffin_data.specs.Walk.{IsFault, IsFirstFault, Sounds};
ghost use Rattle.puffin_data.specs.Walk.PlacedScopes.{nested_in, PlacedScope, Sees, scopes_of};
ghost use Rattle.puffin_data.specs.Forest.Tour.{Event, Open, Close, tour, IsBalanced};
ghost use Rattle.puffin_data.specs.Forest.Words.{word_size, num_begun, open_after, most_open, least_open, greatest_close};
ghost use Rattle.puffin_data.specs.declared.data.form.Form.{Form};
ghost use Rattle.puffin_data.specs.Text.Lengths.{text_limit};
ghost use Rattle.puffin_data.specs.Text.{cut_text, IsCut, text_in};
ghost use Rattle.puffin_data.specs.Reader.{ReadScope, ReaderGives, top_scopes};
ghost use Rattle.puffin_data.specs.Forest.Open.{Opened, IsOpened, open_spelling, open_word, size_place, ended_bytes, with_ended};
ghost use Rattle.puffin_data.specs.Value.Layout.{NoneBeginsAnother, ReadsLayouts, byte, number, signed, flag, block, IsByte, IsU32, IsLong, IsSigned, IsAny, IsBlock, IsText};
ghost use Rattle.puffin_data.specs.Value.Decoding.{byte_at, number_at, u32_at, signed_at, flag_at, bytes_at, text_at};
ghost use Rattle.puffin_data.specs.declared.error.Error.{Error};
ghost use Rattle.puffin_data.specs.declared.data.record.Scope.{Scope};
ghost use Rattle.puffin_data.specs.declared.data.record.ScopeRecord.{ScopeRecord};
ghost use Rattle.puffin_data.specs.Reader.ReadScopes.{record_seen, scope_seen};

use crate::data::{Scope, ScopeRecord};

/// A forest that can be written in a form has one spelling in that form. If the spelling is shorter than `2^63` bytes, no other
/// such forest has it. The spelling of two forests, one after the other, is that of the first and then that of the second.
pub fn one_forest()
    ensures spelling { (form : Form) (first second : Forest) →
        IsForest form first → IsForest form second →
        length (spelling form first) < 2 ^ 63 →
        spelling form first ≡ spelling form second → first ≡ second }
    ensures joined { (form : Form) (first second : Forest) →
        spelling form (append first second) ≡ spelling form first ++ spelling form second }
{}

/// Joining two forests adds their scope counts, and takes the greater height, the lesser start and the greater stop. If both
/// can be written in a form, the joined forest can be written in it too.
pub fn joined_measures()
    ensures scope_count { (first second : Forest) →
        scope_count (append first second) ≡ scope_count first + scope_count second }
    ensures height { (first second : Forest) →
        height (append first second) ≡ max (height first) (height second) }
    ensures least_start { (first second : Forest) →
        least_start (append first second) ≡ int_min (least_start first) (least_start second) }
    ensures greatest_stop { (first second : Forest) →
        greatest_stop (append first second) ≡ int_max (greatest_stop first) (greatest_stop second) }
    ensures written { (form : Form) (first second : Forest) →
        IsForest form first → IsForest form second →
        IsForest form (append first second) }
{}

/// A forest's least start is at most `i64::MAX`, and its greatest stop at least `i64::MIN`. If there is a scope, the start
/// isn't greater than the stop.
pub fn range_of_a_forest()
    ensures start { (forest : Forest) → least_start forest ≤ℤ pos (2 ^ 63 - 1) }
    ensures stop { (forest : Forest) → negsuc (2 ^ 63 - 1) ≤ℤ greatest_stop forest }
    ensures ordered { (form : Form) (forest : Forest) →
        IsForest form forest → 0 < scope_count forest →
        least_start forest ≤ℤ greatest_stop forest }
{}

/// Joining two honest infos gives an honest one, unless both have bytes and their forms differ.
pub fn joined_infos()
    ensures { (first second : StreamFacts) (first_forest second_forest : Forest) →
        ¬ AreUnlike first second →
        AreHonestFacts first first_forest → AreHonestFacts second second_forest →
        AreHonestFacts (joined_facts first second) (append first_forest second_forest) }
{}

/// Bytes have at most one first fault, at one offset.
pub fn one_fault()
    ensures { (form : Form) (bytes : List ℕ) (place other_place : ℕ) (fault other : Error) →
        IsFirstFault form bytes place fault → IsFirstFault form bytes other_place other →
        (place ≡ other_place) × (fault ≡ other) }
{}

/// Bytes that spell a forest have no fault.
pub fn no_fault_in_a_spelling()
    ensures { (form : Form) (bytes : List ℕ) (forest : Forest) (fault : Error) →
        length bytes < 2 ^ 64 → Spells form bytes forest → IsFault form bytes fault → ⊥ }
{}

/// Each stream has exactly one list of the offsets of its sound scopes, which are those read without a fault. The offsets are
/// in strictly ascending order.
pub fn sounds_rise()
    ensures has { (form : Form) (bytes : List ℕ) →
        (places : List ℕ) × Sounds form bytes 0 (length bytes) places }
    ensures one { (form : Form) (bytes places others : List ℕ) →
        Sounds form bytes 0 (length bytes) places →
        Sounds form bytes 0 (length bytes) others → places ≡ others }
    ensures rise { (form : Form) (bytes places : List ℕ) →
        Sounds form bytes 0 (length bytes) places →
        IsStrictlyIncreasing places }
{}

/// For any bytes there is exactly one list of the sound scopes (those read without a fault), each with its offset and the
/// scopes around it. If the bytes spell a forest, these are the forest's scopes.
pub fn scopes_of_a_walk()
    ensures has { (form : Form) (bytes : List ℕ) →
        (placed : List PlacedScope) × Sees form bytes [] 0 (length bytes) placed }
    ensures one { (form : Form) (bytes : List ℕ) (placed others : List PlacedScope) →
        Sees form bytes [] 0 (length bytes) placed → Sees form bytes [] 0 (length bytes) others →
        placed ≡ others }
    ensures spelled { (form : Form) (bytes : List ℕ) (forest : Forest) (placed : List PlacedScope) →
        length bytes < 2 ^ 64 →
        Spells form bytes forest → Sees form bytes [] 0 (length bytes) placed →
        scopes_of placed ≡ nested_in [] forest }
{}

/// The fault of a walk is `PrematureEnd`, `InvalidStream` or `ScopeNeverEnded`.
pub fn faults_of_a_walk()
    ensures { (form : Form) (bytes : List ℕ) (fault : Error) → IsFault form bytes fault →
        (fault ≡ Error.PrematureEnd)
        ⊎ (fault ≡ Error.InvalidStream)
        ⊎ (fault ≡ Error.ScopeNeverEnded) }
{}

/// A balanced word is the tour of exactly one forest. The tour of two forests, one after the other, is the tour of the first
/// and then that of the second.
pub fn one_tour()
    ensures tour { (first second : Forest) → tour first ≡ tour second → first ≡ second }
    ensures balanced { (word : List Event) (one other : IsBalanced word) → one.0 ≡ other.0 }
    ensures joined { (first second : Forest) →
        tour (append first second) ≡ tour first ++ tour second }
{}

/// The measures of a forest, and the size of its spelling, are those of its tour. After the tour, no scope is open.
pub fn tour_measures()
    ensures size { (form : Form) (forest : Forest) →
        word_size form (tour forest) ≡ length (spelling form forest) }
    ensures begun { (forest : Forest) → num_begun (tour forest) ≡ scope_count forest }
    ensures open { (forest : Forest) → open_after 0 (tour forest) ≡ 0 }
    ensures most_open { (forest : Forest) → most_open 0 (tour forest) ≡ height forest }
    ensures least_open { (forest : Forest) → least_open (tour forest) ≡ least_start forest }
    ensures greatest_close { (forest : Forest) →
        greatest_close (tour forest) ≡ greatest_stop forest }
{}

/// Appending an `Open` to a word adds the size of the scope's beginning, one scope and one open scope. The least start becomes the
/// scope's if that is less; the greatest stop stays.
pub fn opening_measures()
    ensures size { (form : Form) (word : List Event) (id : ℕ) (text : List ℕ) (start : ℤ) →
        word_size form (word ++ (Open id text start ∷ []))
        ≡ word_size form word + head_size form text }
    ensures begun { (word : List Event) (id : ℕ) (text : List ℕ) (start : ℤ) →
        num_begun (word ++ (Open id text start ∷ [])) ≡ num_begun word + 1 }
    ensures open { (word : List Event) (id : ℕ) (text : List ℕ) (start : ℤ) →
        open_after 0 (word ++ (Open id text start ∷ [])) ≡ open_after 0 word + 1 }
    ensures most_open { (word : List Event) (id : ℕ) (text : List ℕ) (start : ℤ) →
        most_open 0 (word ++ (Open id text start ∷ []))
        ≡ max (most_open 0 word) (open_after 0 word + 1) }
    ensures least_open { (word : List Event) (id : ℕ) (text : List ℕ) (start : ℤ) →
        FitsSigned w64 start →
        least_open (word ++ (Open id text start ∷ [])) ≡ int_min (least_open word) start }
    ensures greatest_close { (word : List Event) (id : ℕ) (text : List ℕ) (start : ℤ) →
        greatest_close (word ++ (Open id text start ∷ [])) ≡ greatest_close word }
{}

/// Appending a `Close` to a word adds the size of a scope's end, and takes one open scope away. The greatest stop becomes this stop
/// if that is greater; the other measures stay.
pub fn closing_measures()
    ensures size { (form : Form) (word : List Event) (stop : ℤ) →
        word_size form (word ++ (Close stop ∷ [])) ≡ word_size form word + end_size }
    ensures begun { (word : List Event) (stop : ℤ) →
        num_begun (word ++ (Close stop ∷ [])) ≡ num_begun word }
    ensures open { (word : List Event) (stop : ℤ) →
        open_after 0 (word ++ (Close stop ∷ [])) ≡ open_after 0 word - 1 }
    ensures most_open { (word : List Event) (stop : ℤ) →
        most_open 0 (word ++ (Close stop ∷ [])) ≡ most_open 0 word }
    ensures least_open { (word : List Event) (stop : ℤ) →
        least_open (word ++ (Close stop ∷ [])) ≡ least_open word }
    ensures greatest_close { (word : List Event) (stop : ℤ) → FitsSigned w64 stop →
        greatest_close (word ++ (Close stop ∷ [])) ≡ int_max (greatest_close word) stop }
{}

/// A text has exactly one cut: its longest prefix within the form's limit that ends at a character boundary. A cut is UTF-8, so
/// it is read back unchanged. If the items of a text are bytes (below 256), so are those of its cut.
pub fn cut_texts()
    ensures is_cut { (form : Form) (text : List ℕ) → IsUtf8 text →
        IsCut form text (cut_text form text) }
    ensures only { (form : Form) (text cut : List ℕ) → IsCut form text cut →
        cut ≡ cut_text form text }
    ensures read_back { (form : Form) (text : List ℕ) → IsUtf8 text →
        text_in (cut_text form text) ≡ cut_text form text }
    ensures short { (form : Form) (text : List ℕ) → length (cut_text form text) ≤ text_limit form }
    ensures bytes { (form : Form) (text : List ℕ) → All (λ item. item < 256) text →
        All (λ item. item < 256) (cut_text form text) }
{}

/// Beginning a scope appends its beginning to a stream's bytes, and an `Open` to its word. Ending the innermost open scope
/// overwrites the size of its children, and appends its end and a `Close`. Until then, the size is the number that it was begun
/// with. If no scope is open, the stream spells a forest whose tour is the word.
pub fn open_streams()
    ensures begins { (form : Form) (open_scopes : List Opened) (closed : Forest)
        (id : ℕ) (start : ℤ) (text : List ℕ) (size : ℕ) →
        open_spelling form open_scopes closed ++ begin_bytes form id start text size
        ≡ open_spelling form
        (record { before = closed; id = id; start = start; text = text; size = size } ∷ open_scopes)
        empty }
    ensures begins_word { (open_scopes : List Opened) (closed : Forest)
        (id : ℕ) (start : ℤ) (text : List ℕ) (size : ℕ) →
        open_word open_scopes closed ++ (Open id text start ∷ [])
        ≡ open_word
        (record { before = closed; id = id; start = start; text = text; size = size } ∷ open_scopes)
        empty }
    ensures begins_place { (form : Form) (innermost : Opened) (outer : List Opened) →
        size_place form innermost outer + 8
        ≡ length (open_spelling form (innermost ∷ outer) empty) }
    ensures place_within { (form : Form) (innermost : Opened) (outer : List Opened)
        (closed : Forest) →
        size_place form innermost outer + 8
        ≤ length (open_spelling form (innermost ∷ outer) closed) }
    ensures unfinished { (form : Form) (innermost : Opened) (outer : List Opened)
        (closed : Forest) → innermost.size < 2 ^ 64 →
        little_number 8
        (drop (size_place form innermost outer) (open_spelling form (innermost ∷ outer) closed))
        ≡ innermost.size }
    ensures ends { (form : Form) (innermost : Opened) (outer : List Opened) (closed : Forest)
        (stop : ℤ) →
        ended_bytes (open_spelling form (innermost ∷ outer) closed)
        (size_place form innermost outer) stop
        ≡ open_spelling form outer (with_ended innermost closed stop) }
    ensures ends_word { (innermost : Opened) (outer : List Opened) (closed : Forest) (stop : ℤ) →
        open_word (innermost ∷ outer) closed ++ (Close stop ∷ [])
        ≡ open_word outer (with_ended innermost closed stop) }
    ensures ends_written { (form : Form) (innermost : Opened) (closed : Forest) (stop : ℤ) →
        IsOpened form innermost →
        IsForest form closed → FitsSigned w64 stop → innermost.start ≤ℤ stop →
        FitsSigned w64 (stop -ℤ innermost.start) →
        IsForest form (with_ended innermost closed stop) }
    ensures none_open { (form : Form) (closed : Forest) →
        open_spelling form [] closed ≡ spelling form closed }
    ensures none_open_word { (closed : Forest) → open_word [] closed ≡ tour closed }
    ensures size { (form : Form) (open_scopes : List Opened) (closed : Forest) →
        length (open_spelling form open_scopes closed)
        ≡ word_size form (open_word open_scopes closed) }
    ensures open { (open_scopes : List Opened) (closed : Forest) →
        open_after 0 (open_word open_scopes closed) ≡ length open_scopes }
{}

/// From each offset of a stream, a reader returns exactly one sequence: scopes, and then at most one fault. A fault moves the
/// reader to the stream's end, where it returns nothing. From the first byte of a forest's spelling, it returns the top-level
/// scopes.
pub fn one_reading()
    ensures read { (form : Form) (bytes : List ℕ) (place : ℕ) → place ≤ length bytes →
        (items : List (Result ReadScope Error)) × ReaderGives form bytes place items }
    ensures one { (form : Form) (bytes : List ℕ) (place : ℕ)
        (items others : List (Result ReadScope Error)) →
        ReaderGives form bytes place items → ReaderGives form bytes place others → items ≡ others }
    ensures end { (form : Form) (bytes : List ℕ) (items : List (Result ReadScope Error)) →
        ReaderGives form bytes (length bytes) items → items ≡ [] }
    ensures spelled { (form : Form) (bytes : List ℕ) (forest : Forest) → Spells form bytes forest →
        length bytes < 2 ^ 63 →
        ReaderGives form bytes 0 (map (λ scope. Ok scope) (top_scopes form 0 forest)) }
{}

/// Scopes that were read, and their records, are equal exactly when all of their fields are.
pub fn scopes_by_fields()
    ensures records { (one other : ScopeRecord) →
        IsTrue (⟦<ScopeRecord<'static> as PartialEq>⟧.eq one other)
        ↔ (record_seen one ≡ record_seen other) }
    ensures scopes { (one other : Scope) →
        IsTrue (⟦<Scope<'static> as PartialEq>⟧.eq one other)
        ↔ (scope_seen one ≡ scope_seen other) }
{}

/// No value's layout is a prefix of the layout of another value of its kind. Numbers of 32 bits have the layouts of numbers of
/// 64 bits, and texts those of blocks of bytes, so this holds for them too.
pub fn no_layout_begins_another()
    ensures bytes { NoneBeginsAnother IsByte byte }
    ensures numbers { NoneBeginsAnother IsLong number }
    ensures signed { NoneBeginsAnother IsSigned signed }
    ensures flags { NoneBeginsAnother IsAny flag }
    ensures blocks { NoneBeginsAnother IsBlock block }
{}

/// A value is read from the front of bytes exactly when its layout is there.
pub fn only_layouts_are_read()
    ensures bytes { ReadsLayouts IsByte byte byte_at }
    ensures numbers { ReadsLayouts IsLong number number_at }
    ensures words { ReadsLayouts IsU32 number u32_at }
    ensures signed { ReadsLayouts IsSigned signed signed_at }
    ensures flags { ReadsLayouts IsAny flag flag_at }
    ensures blocks { ReadsLayouts IsBlock block bytes_at }
    ensures texts { ReadsLayouts IsText block text_at }
{}
