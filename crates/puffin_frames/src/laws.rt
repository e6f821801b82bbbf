//! Laws of infos and their totals. Each is the contract of a function that does nothing; a proof of another crate cites it by
//! calling the function.

ghost use Rattle.std.specs.Prelude.{List, ◌≡◌, ◌∷◌, ◌++◌, ◌+◌, [], ◌<◌, ◌≤◌, length};
ghost use Rattle.std.specs.Map.{keys_of};
ghost use Rattle.std.specs.List.Sorted.{IsStrictlySortedBy};
ghost use Rattle.std.specs.BTreeMap.{BTreeMap, insert_entry};
ghost use Rattle.std.specs.FinMap as map;
ghost use Rattle.std.specs.Int.{int_min, int_max};
ghost use Rattle.puffin_data.specs.declared.data.info.StreamInfo.{StreamInfo};
ghost use Rattle.puffin_threads.specs.declared.thread_profiler.thread_info.ThreadInfo.{ThreadInfo};
ghost use Rattle.puffin_threads.specs.Thread.ThreadKey.{ThreadKey, key_of, key_cmp, thread_cmp, key_entries};
ghost use Rattle.puffin_frames.specs.Frame.Contents.{Streams, streams_of, records, all_facts, stream_under, reported_to, AreHonest};
ghost use Rattle.puffin_data.specs.Forest.{Forest};
ghost use Rattle.puffin_data.specs.Honesty.{StreamFacts, facts_of, AreHonestFacts, AreUnlike};
ghost use Rattle.puffin_frames.specs.Frame.Sums.{total_bytes, total_scopes, joined_start, joined_stop, joined_range, IsOrdered};

use puffin_threads::thread_profiler::ThreadInfo;

/// A `BTreeMap` from thread infos to streams is a sorted list of entries; contracts see the list as a map from keys to facts.
/// The list and that map have the same entries and values. Inserting into the list inserts into the map.
pub fn streams_by_key()
    ensures entries { (entries : List (ThreadInfo × StreamInfo)) →
        IsStrictlySortedBy thread_cmp (keys_of entries) →
        map.entries (streams_of entries) ≡ key_entries (records entries) }
    ensures values { (streams : BTreeMap ThreadInfo StreamInfo) →
        IsStrictlySortedBy thread_cmp (keys_of streams.entries) →
        map.values (streams_of streams.entries) ≡ all_facts streams }
    ensures inserted { (entries : List (ThreadInfo × StreamInfo)) (thread : ThreadInfo) (
        info : StreamInfo) →
        streams_of (insert_entry thread_cmp entries thread info)
        ≡ map.insert (streams_of entries) (key_of thread) (facts_of info) }
{}

/// If one more info, or a second list, is added to a list of infos, the new joined range has the lesser start and the greater
/// stop of the joined range before and the range of what was added.
pub fn joined_ranges()
    ensures start_of_one_more { (info : StreamFacts) (infos : List StreamFacts) →
        joined_start (info ∷ infos) ≡ int_min info.range_ns.0 (joined_start infos) }
    ensures stop_of_one_more { (info : StreamFacts) (infos : List StreamFacts) →
        joined_stop (info ∷ infos) ≡ int_max info.range_ns.1 (joined_stop infos) }
    ensures start { (front rest : List StreamFacts) →
        joined_start (front ++ rest) ≡ int_min (joined_start front) (joined_start rest) }
    ensures stop { (front rest : List StreamFacts) →
        joined_stop (front ++ rest) ≡ int_max (joined_stop front) (joined_stop rest) }
{}

/// A report adds its bytes and scopes to the totals of all streams, and its range is joined to theirs. The scopes under one
/// thread are part of the total.
pub fn reported_streams()
    ensures bytes { (streams : Streams) (thread : ThreadKey) (report : StreamFacts) →
        total_bytes (map.values (reported_to streams thread report))
        ≡ total_bytes (map.values streams) + length report.bytes }
    ensures scopes { (streams : Streams) (thread : ThreadKey) (report : StreamFacts) →
        total_scopes (map.values (reported_to streams thread report))
        ≡ total_scopes (map.values streams) + report.num_scopes }
    ensures start { (streams : Streams) (thread : ThreadKey) (report : StreamFacts) →
        joined_start (map.values (reported_to streams thread report))
        ≡ int_min (joined_start (map.values streams)) report.range_ns.0 }
    ensures stop { (streams : Streams) (thread : ThreadKey) (report : StreamFacts) →
        joined_stop (map.values (reported_to streams thread report))
        ≡ int_max (joined_stop (map.values streams)) report.range_ns.1 }
    ensures none { map.values {X = StreamFacts} {R = key_cmp} map.empty ≡ [] }
    // The scopes under one info are part of the total.
    ensures under_one { (streams : Streams) (thread : ThreadKey) →
        (stream_under streams thread).num_scopes ≤ total_scopes (map.values streams) }
{}

/// Honest streams stay honest after an honest report, unless the report and the stream under its thread's info both have bytes
/// and their forms differ. If honest streams have a scope, their joined range isn't reversed. If the total number of scopes is
/// 0, no stream has a scope.
pub fn honest_streams()
    ensures none { AreHonest map.empty }
    ensures report { (streams : Streams) (thread : ThreadKey) (report : StreamFacts) (
        forest : Forest) →
        ¬ AreUnlike (stream_under streams thread) report → AreHonest streams →
        AreHonestFacts report forest → AreHonest (reported_to streams thread report) }
    ensures ordered { (streams : Streams) → AreHonest streams →
        0 < total_scopes (map.values streams) → IsOrdered (joined_range (map.values streams)) }
    ensures no_scopes { (streams : Streams) (thread : ThreadKey) (info : StreamFacts) →
        total_scopes (map.values streams) ≡ 0 → map.get streams thread ≡ Some info →
        info.num_scopes ≡ 0 }
{}
