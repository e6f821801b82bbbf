use crate::equal::equal;
use puffin_data::data::ScopeId;

#[test]
fn an_id_is_any_number_but_0(rt: HostRuntime) {
    equal(&rt, ScopeId::new(0), None);
    let low = ScopeId::new(1).expect(&rt, "1 is an id");
    let high = ScopeId::new(u32::MAX).expect(&rt, "the greatest number is an id");
    equal(&rt, (low.get(), high.get()), (1, u32::MAX));
    equal(&rt, (low < high, low == high), (true, false));
}
