//! Numbers in a row, with the sums of groups of them beside.
//!
//! So the numbers before a place are added up over the groups before its own, and over fewer numbers than a group has.

ghost use Rattle.std.specs.Prelude.{◌≡◌, ◌<◌, ◌≤◌, ◌+◌, ◌-◌, ◌*◌, ◌^◌, length, take, drop, slice_index, slice_set};
ghost use Rattle.std.specs.List.{insert, remove, sum};
ghost use Rattle.std.specs.Vec.{vec_capacity};
ghost use Rattle.judy_sums.specs.Groups.{AreGroups, AreSums, groups_for};

// So many numbers a group has; the last one has what is left.
const GROUP: usize = 64;

// The sum of some numbers.
fn sum(numbers: &[u64]) -> u64
    requires { sum numbers.now < 2 ^ 64 }
    ensures { result ≡ sum numbers.now }
{
    let mut sum = 0;
    for number in numbers {
        sum += *number;
    }
    sum
}

// The sum of the numbers before a place.
pub fn sum_before(numbers: &[u64], groups: &[u64], at: usize) -> u64
    requires are { AreGroups numbers.now groups.now }
    requires within { at ≤ length numbers.now }
    requires fits { sum (take at numbers.now) < 2 ^ 64 }
    ensures { result ≡ sum (take at numbers.now) }
{
    let group = at / GROUP;
    sum(&groups[..group]) + sum(&numbers[GROUP * group..at])
}

// Adds to the number at a place.
pub fn add(numbers: &mut Vec<u64>, groups: &mut Vec<u64>, at: usize, more: u64)
    requires are { AreGroups numbers.old.items groups.old.items }
    requires within { at < length numbers.old.items }
    requires fits { sum numbers.old.items + more < 2 ^ 64 }
    ensures changed { let old = numbers.old.items in
        numbers.new.items ≡ slice_set old at (slice_index old at + more) }
    ensures are { AreGroups numbers.new.items groups.new.items }
{
    numbers[at] += more;
    groups[at / GROUP] += more;
}

// Takes from the number at a place.
pub fn subtract(numbers: &mut Vec<u64>, groups: &mut Vec<u64>, at: usize, less: u64)
    requires are { AreGroups numbers.old.items groups.old.items }
    requires within { at < length numbers.old.items }
    requires some { less ≤ slice_index numbers.old.items at }
    ensures changed { let old = numbers.old.items in
        numbers.new.items ≡ slice_set old at (slice_index old at - less) }
    ensures are { AreGroups numbers.new.items groups.new.items }
    ensures room { vec_capacity numbers.new ≡ vec_capacity numbers.old }
    ensures room_beside { vec_capacity groups.new ≡ vec_capacity groups.old }
{
    numbers[at] -= less;
    groups[at / GROUP] -= less;
}

// The sum of the numbers of a group.
fn sum_of_group(numbers: &[u64], group: usize) -> u64
    requires within { 64 * group ≤ length numbers.now }
    requires fits { sum numbers.now < 2 ^ 64 }
    ensures { sum (take (64 * group) numbers.now) + result
        ≡ sum (take (64 * (group + 1)) numbers.now) }
{
    let rest = &numbers[GROUP * group..];
    if rest.len() < GROUP {
        return sum(rest);
    }
    sum(&rest[..GROUP])
}

// Makes the groups from one on anew.
fn regroup(numbers: &[u64], groups: &mut Vec<u64>, first: usize)
    requires many { length groups.old.items ≡ groups_for (length numbers.now) }
    requires before { AreSums first numbers.now groups.old.items }
    requires fits { sum numbers.now < 2 ^ 64 }
    ensures { AreGroups numbers.now groups.new.items }
{
    let mut group = first;
    'groups: while group < groups.len() {
        groups[group] = sum_of_group(numbers, group);
        group += 1;
    }
}

// Puts a number in at a place, where there is room for it and for a group.
pub fn put_in(numbers: &mut Vec<u64>, groups: &mut Vec<u64>, at: usize, number: u64)
    requires are { AreGroups numbers.old.items groups.old.items }
    requires within { at ≤ length numbers.old.items }
    requires fits { sum numbers.old.items + number < 2 ^ 64 }
    requires room { length numbers.old.items < vec_capacity numbers.old }
    requires room_beside { length groups.old.items < vec_capacity groups.old }
    ensures inserted { numbers.new.items ≡ insert numbers.old.items at number }
    ensures are { AreGroups numbers.new.items groups.new.items }
{
    if numbers.len() % GROUP == 0 {
        let Ok(()) = groups.push(0) else {
            unreachable!()
        };
    }
    let Ok(()) = numbers.insert(at, number) else {
        unreachable!()
    };
    regroup(numbers, groups, at / GROUP);
}

// Takes the number at a place out.
pub fn take_out(numbers: &mut Vec<u64>, groups: &mut Vec<u64>, at: usize)
    requires are { AreGroups numbers.old.items groups.old.items }
    requires within { at < length numbers.old.items }
    requires fits { sum numbers.old.items < 2 ^ 64 }
    ensures removed { numbers.new.items ≡ remove numbers.old.items at }
    ensures are { AreGroups numbers.new.items groups.new.items }
{
    numbers.remove(at);
    if numbers.len() % GROUP == 0 {
        groups.pop();
    }
    regroup(numbers, groups, at / GROUP);
}
