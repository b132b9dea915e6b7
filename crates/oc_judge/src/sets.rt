//! Consistent sets.
ghost use Rattle.std.specs.Prelude.{◌≡◌, ◌<◌, find, length, option_map, position, vec_len, vec_capacity, IfSome};
ghost use Rattle.oc_steps.specs.Fold.{is_one, is_set, may_tag, put_instance, tag_age, with_tag};
ghost use Rattle.oc_judge.specs.Stores.{event_view};
ghost use Rattle.oc_judge.specs.Values.{age_view};
ghost use Rattle.oc_judge.specs.Ways.{instance_view, sets_view};

use crate::age::Age;
use crate::store::Event;
use crate::way::Instance;

/// Whether an instance is one of this set.
fn is_set(set: (usize, i32), instance: Instance) -> bool
    ensures { result ≡ is_set set (instance_view instance) }
{
    instance.set.0 == set.0 && instance.set.1 == set.1
}

/// The last instance of a set.
fn last_of(sets: &[Instance], set: (usize, i32)) -> Option<Instance>
    ensures { option_map instance_view result ≡ find (is_set set) (sets_view sets.now) }
{
    for instance in sets {
        if is_set(set, *instance) {
            return Some(*instance);
        }
    }
    None
}

/// The age of a set's instance with that of a tag.
fn tag_age(set: (usize, i32), event: Event, sets: &[Instance]) -> Age
    ensures { age_view result ≡ tag_age set (event_view event) (sets_view sets.now) }
{
    match last_of(sets, set) {
        None => event.age,
        Some(last) => {
            if last.number == event.instance {
                last.age.join(event.age)
            } else {
                event.age
            }
        }
    }
}

/// Whether an age is that of samples behind one number of outages, or of none.
fn is_one(age: Age) -> bool
    ensures { result ≡ is_one (age_view age) }
{
    match age {
        Age::Never => true,
        Age::Once { .. } => true,
        Age::Mixed => false,
    }
}

/// Whether a tag of this set may be told.
pub fn may_tag(set: Option<(usize, i32)>, event: Event, sets: &[Instance]) -> bool
    ensures { result ≡ may_tag set (event_view event) (sets_view sets.now) }
{
    match set {
        None => true,
        Some(set) => is_one(tag_age(set, event, sets)),
    }
}

/// Where the last instance of a set stands.
fn place_of(set: (usize, i32), sets: &[Instance]) -> Option<usize>
    ensures place { result ≡ position (λ i. is_set set (instance_view i)) sets.now }
    ensures within { IfSome result (λ i. i < length sets.now) }
{
    sets.iter().position(|instance| is_set(set, *instance))
}

/// Puts the last instance of a set, where there is room for one more set.
fn put(set: (usize, i32), last: Instance, sets: &mut Vec<Instance>)
    requires { vec_len sets.old < vec_capacity sets.old }
    ensures { sets_view sets.new.items
        ≡ put_instance set (instance_view last) (sets_view sets.old.items) }
{
    match place_of(set, sets) {
        Some(place) => sets[place] = last,
        None => {
            // There is room for one more set, so this wants no memory.
            let _ = sets.push(last);
        }
    }
}

/// A tag of this set is told, where there is room for one more set.
pub fn tell_tag(set: Option<(usize, i32)>, event: Event, sets: &mut Vec<Instance>)
    requires { vec_len sets.old < vec_capacity sets.old }
    ensures { sets_view sets.new.items
        ≡ with_tag set (event_view event) (sets_view sets.old.items) }
{
    if let Some(set) = set {
        let last = Instance {
            set,
            number: event.instance,
            age: tag_age(set, event, sets),
        };
        put(set, last, sets);
    }
}
