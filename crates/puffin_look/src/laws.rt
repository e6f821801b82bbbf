//! What follows from definitions: a law is a function without a body that does anything, whose contract is the law.

ghost use Rattle.std.specs.Prelude.{◌-◌, ◌*◌, ◌≤◌, IsTrue};
ghost use Rattle.std.specs.List.{list_all};
ghost use Rattle.puffin_look.specs.Buckets.{bucket_of, last_of};
ghost use Rattle.puffin_look.specs.Page.{begins_none, embedded};

/// The last duration of the bucket of a duration is at least that, and greater by less than a 128th of it.
pub fn bucket_is_near(time: u64)
    ensures not_less { time ≤ last_of (bucket_of time) }
    ensures near { (last_of (bucket_of time) - time) * 128 ≤ time }
{
    let _ = time;
}

/// The data in an element of a page have no `<`, so nothing ends the element but its end.
pub fn no_element_ends(json: &[u8])
    ensures { IsTrue (list_all begins_none (embedded json.now)) }
{
    let _ = json;
}
