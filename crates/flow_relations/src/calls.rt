ghost use Rattle.std.specs.Prelude.{◌≡◌, ◌+◌, ◌<◌, ◌≤◌, ◌^◌, ◌⊎◌, All, IfOk, length};
ghost use Rattle.core_form.specs.Code.{actuals_at, expr_of, exprs_at, spot_at, spots_at};
ghost use Rattle.core_form.specs.Fine.{ActualBelow, ExprsBelow, HasFineNodes, PlaceBelow};
ghost use Rattle.flow_bits.specs.Sets.{Tells};
ghost use Rattle.flow_facts.specs.Flow.{IsSame, moving, reads_of, reads_of_all, seq, setting};
ghost use Rattle.flow_facts.specs.Told.{AreSized, told};
ghost use Rattle.call_flow.specs.Calls.{actuals_in, actuals_out, dropped, knowing, last_name, passing_at, spots_out, values_in};
ghost use Rattle.call_flow.specs.Told.{IsKnown, known_told, name_in};
ghost use Rattle.flow_relations.specs.CallsTold.{AreWithin, called_by};
ghost use Rattle.flow_relations.specs.Framing.{AreBelow, place_at};
ghost use Rattle.flow_relations.specs.Renamed.{renamed, renamed_actuals, renamed_all, renamed_spot, renamed_spots};
ghost use Rattle.flow_relations.specs.Told.{HasRoom};

use crate::frame::Places;
use crate::reads::add_all_reads;
use crate::statements::{Room, new_room, only_reads};
use call_flow::{Known, Passing, Signature, dropped_facts, known_facts};
use core_form::{Actual, Place, Program};
use flow_bits::Row;
use flow_facts::{Facts, prepend_change, prepend_move, skip_facts, then_with};
use spark_base::{ExprNo, NoMemory};
use std::alloc::Global;

// How the formal of a number is passed; nothing is behind the last.
fn passing_at(signature: &Signature, formal: u32) -> Passing
    ensures { result ≡ passing_at signature.now formal }
{
    match signature.passings.get(formal as usize) {
        Some(passing) => *passing,
        None => Passing {
            first: 0,
            ins: 0,
            backs: 0,
        },
    }
}

// Puts before what follows that a value is moved to a name of the call.
fn prepend_value(
    program: &Program,
    places: &Places,
    big: u32,
    e: ExprNo,
    to: u32,
    rest: &mut Facts,
    room: &mut Room,
)
    requires fine { HasFineNodes program.now }
    requires places { AreBelow (length program.now.leaves) places.now }
    requires big { places.now.void ≤ big }
    requires in_range { e.0 < length program.now.exprs }
    requires to { to < big }
    requires size { AreSized (big + 1) rest.old }
    requires room { HasRoom (big + 1) room.old }
    ensures size { AreSized (big + 1) rest.new }
    ensures room { HasRoom (big + 1) room.new }
    ensures flow { IsSame (told rest.new) (seq big (moving big to (reads_of (renamed (place_at places.now) (expr_of program.now.exprs e)))) (told rest.old)) }
{
    only_reads(program, places, e, &mut room.reads);
    prepend_move(rest, big, to, &room.reads, &mut room.row);
}

// Puts before what follows that values are moved to names of the call from one on, at most so many.
fn prepend_values(
    program: &Program,
    places: &Places,
    big: u32,
    first: u32,
    count: u32,
    values: &[ExprNo],
    rest: &mut Facts,
    room: &mut Room,
)
    requires fine { HasFineNodes program.now }
    requires places { AreBelow (length program.now.leaves) places.now }
    requires big { places.now.void ≤ big }
    requires values { ExprsBelow (length program.now.exprs) values.now }
    requires names { first + count ≤ big }
    requires size { AreSized (big + 1) rest.old }
    requires room { HasRoom (big + 1) room.old }
    ensures size { AreSized (big + 1) rest.new }
    ensures room { HasRoom (big + 1) room.new }
    ensures flow { IsSame (told rest.new) (values_in big first count (renamed_all (place_at places.now) (exprs_at (expr_of program.now.exprs) values.now)) (told rest.old)) }
{
    let moved = values.len().min(count as usize);
    for i in (0..moved).rev() {
        prepend_value(
            program,
            places,
            big,
            values[i],
            first + i as u32,
            rest,
            room,
        );
    }
}

// Makes `into` what a move of a name of the call to a place reads.
fn spot_reads(program: &Program, places: &Places, place: &Place, from: u32, into: &mut Row)
    requires fine { HasFineNodes program.now }
    requires places { AreBelow (length program.now.leaves) places.now }
    requires place { PlaceBelow (length program.now.leaves) (length program.now.exprs) place.now }
    requires from { from < length into.old }
    requires size { places.now.void < length into.old }
    ensures size { length into.new ≡ length into.old }
    ensures set { Tells into.new (λ v. (v ≡ from) ⊎ reads_of_all (renamed_all (place_at places.now) (exprs_at (expr_of program.now.exprs) place.now.part)) v) }
{
    into.clear();
    into.add(from);
    add_all_reads(
        program,
        places,
        program.exprs.len() as u32,
        place.part.as_slice(),
        into,
    );
}

// Puts before what follows that a name of the call is moved to a place.
fn prepend_spot(
    program: &Program,
    places: &Places,
    big: u32,
    place: &Place,
    from: u32,
    rest: &mut Facts,
    room: &mut Room,
)
    requires fine { HasFineNodes program.now }
    requires places { AreBelow (length program.now.leaves) places.now }
    requires big { places.now.void ≤ big }
    requires place { PlaceBelow (length program.now.leaves) (length program.now.exprs) place.now }
    requires from { from < big }
    requires size { AreSized (big + 1) rest.old }
    requires room { HasRoom (big + 1) room.old }
    ensures size { AreSized (big + 1) rest.new }
    ensures room { HasRoom (big + 1) room.new }
    ensures flow { IsSame (told rest.new) (seq big (setting big (renamed_spot (place_at places.now) (spot_at (expr_of program.now.exprs) place.now)) (λ u. u ≡ from)) (told rest.old)) }
{
    spot_reads(program, places, place, from, &mut room.reads);
    let to = places.number(place.leaf);
    if place.whole {
        prepend_move(rest, big, to, &room.reads, &mut room.row);
    } else {
        prepend_change(rest, big, to, &room.reads, &mut room.row);
    }
}

// Puts before what follows that names of the call from one on are moved to places, at most so many.
fn prepend_spots(
    program: &Program,
    places: &Places,
    big: u32,
    first: u32,
    count: u32,
    list: &[Place],
    rest: &mut Facts,
    room: &mut Room,
)
    requires fine { HasFineNodes program.now }
    requires places { AreBelow (length program.now.leaves) places.now }
    requires big { places.now.void ≤ big }
    requires list { All (PlaceBelow (length program.now.leaves) (length program.now.exprs)) list.now }
    requires names { first + count ≤ big }
    requires size { AreSized (big + 1) rest.old }
    requires room { HasRoom (big + 1) room.old }
    ensures size { AreSized (big + 1) rest.new }
    ensures room { HasRoom (big + 1) room.new }
    ensures flow { IsSame (told rest.new) (spots_out big first count (renamed_spots (place_at places.now) (spots_at (expr_of program.now.exprs) list.now)) (told rest.old)) }
{
    let moved = list.len().min(count as usize);
    for i in (0..moved).rev() {
        prepend_spot(program, places, big, &list[i], first + i as u32, rest, room);
    }
}

// The first part of a call for one actual, before what follows.
#[tactic(auto, unfolding(core_form::specs::Fine::ActualBelow))]
fn prepend_in(
    program: &Program,
    places: &Places,
    big: u32,
    signature: &Signature,
    actual: &Actual,
    rest: &mut Facts,
    room: &mut Room,
)
    requires fine { HasFineNodes program.now }
    requires places { AreBelow (length program.now.leaves) places.now }
    requires big { big ≡ last_name places.now.void signature.now }
    requires actual { ActualBelow (length program.now.leaves) (length program.now.exprs) actual.now }
    requires signature { AreWithin signature.now }
    requires size { AreSized (big + 1) rest.old }
    requires room { HasRoom (big + 1) room.old }
    ensures size { AreSized (big + 1) rest.new }
    ensures room { HasRoom (big + 1) room.new }
    ensures flow { IsSame (told rest.new) (values_in big (places.now.void + (passing_at signature.now actual.now.formal).first) (passing_at signature.now actual.now.formal).ins
        (renamed_all (place_at places.now) (exprs_at (expr_of program.now.exprs) actual.now.value)) (told rest.old)) }
{
    let passing = passing_at(signature, actual.formal);
    let first = places.void + passing.first;
    prepend_values(
        program,
        places,
        big,
        first,
        passing.ins,
        actual.value.as_slice(),
        rest,
        room,
    );
}

// The first part of a call, before what follows.
fn prepend_ins(
    program: &Program,
    places: &Places,
    big: u32,
    signature: &Signature,
    list: &[Actual],
    rest: &mut Facts,
    room: &mut Room,
)
    requires fine { HasFineNodes program.now }
    requires places { AreBelow (length program.now.leaves) places.now }
    requires big { big ≡ last_name places.now.void signature.now }
    requires list { All (ActualBelow (length program.now.leaves) (length program.now.exprs)) list.now }
    requires signature { AreWithin signature.now }
    requires size { AreSized (big + 1) rest.old }
    requires room { HasRoom (big + 1) room.old }
    ensures size { AreSized (big + 1) rest.new }
    ensures room { HasRoom (big + 1) room.new }
    ensures flow { IsSame (told rest.new) (actuals_in places.now.void big signature.now (renamed_actuals (place_at places.now) (actuals_at (expr_of program.now.exprs) list.now)) (told rest.old)) }
{
    for i in (0..list.len()).rev() {
        prepend_in(program, places, big, signature, &list[i], rest, room);
    }
}

// The third part of a call for one actual, before what follows.
#[tactic(auto, unfolding(core_form::specs::Fine::ActualBelow))]
fn prepend_out(
    program: &Program,
    places: &Places,
    big: u32,
    signature: &Signature,
    actual: &Actual,
    rest: &mut Facts,
    room: &mut Room,
)
    requires fine { HasFineNodes program.now }
    requires places { AreBelow (length program.now.leaves) places.now }
    requires big { big ≡ last_name places.now.void signature.now }
    requires actual { ActualBelow (length program.now.leaves) (length program.now.exprs) actual.now }
    requires signature { AreWithin signature.now }
    requires size { AreSized (big + 1) rest.old }
    requires room { HasRoom (big + 1) room.old }
    ensures size { AreSized (big + 1) rest.new }
    ensures room { HasRoom (big + 1) room.new }
    ensures flow { IsSame (told rest.new) (spots_out big (places.now.void + (passing_at signature.now actual.now.formal).first) (passing_at signature.now actual.now.formal).backs
        (renamed_spots (place_at places.now) (spots_at (expr_of program.now.exprs) actual.now.back)) (told rest.old)) }
{
    let passing = passing_at(signature, actual.formal);
    let first = places.void + passing.first;
    prepend_spots(
        program,
        places,
        big,
        first,
        passing.backs,
        actual.back.as_slice(),
        rest,
        room,
    );
}

// The third part of a call, before what follows.
fn prepend_outs(
    program: &Program,
    places: &Places,
    big: u32,
    signature: &Signature,
    list: &[Actual],
    rest: &mut Facts,
    room: &mut Room,
)
    requires fine { HasFineNodes program.now }
    requires places { AreBelow (length program.now.leaves) places.now }
    requires big { big ≡ last_name places.now.void signature.now }
    requires list { All (ActualBelow (length program.now.leaves) (length program.now.exprs)) list.now }
    requires signature { AreWithin signature.now }
    requires size { AreSized (big + 1) rest.old }
    requires room { HasRoom (big + 1) room.old }
    ensures size { AreSized (big + 1) rest.new }
    ensures room { HasRoom (big + 1) room.new }
    ensures flow { IsSame (told rest.new) (actuals_out places.now.void big signature.now (renamed_actuals (place_at places.now) (actuals_at (expr_of program.now.exprs) list.now)) (told rest.old)) }
{
    for i in (0..list.len()).rev() {
        prepend_out(program, places, big, signature, &list[i], rest, room);
    }
}

/// The flow of a call, in numbers of the caller's frame: three parts, one after the other, without the names of its own.
pub fn call_facts(
    alloc: Global,
    program: &Program,
    places: &Places,
    signature: &Signature,
    known: &Known,
    actuals: &[Actual],
) -> Result<Facts, NoMemory>
    requires fine { HasFineNodes program.now }
    requires places { AreBelow (length program.now.leaves) places.now }
    requires actuals { All (ActualBelow (length program.now.leaves) (length program.now.exprs)) actuals.now }
    requires signature { AreWithin signature.now }
    requires room { last_name places.now.void signature.now + 1 < 2 ^ 32 }
    requires known { IsKnown (last_name places.now.void signature.now) known.now }
    ensures size { IfOk result (λ f. AreSized (places.now.void + 1) f) }
    ensures flow { IfOk result (λ f. IsSame (told f) (called_by places.now.void signature.now
        (knowing (last_name places.now.void signature.now) (name_in known.now.names.items) (known_told known.now))
        (renamed_actuals (place_at places.now) (actuals_at (expr_of program.now.exprs) actuals.now)))) }
{
    let big = places.void + signature.leaves.len() as u32;
    let mut room = new_room(alloc, big + 1)?;
    let second = known_facts(alloc, big, known)?;
    let mut rest = skip_facts(alloc, big)?;
    prepend_outs(
        program, places, big, signature, actuals, &mut rest, &mut room,
    );
    then_with(alloc, big, &second, &mut rest)?;
    prepend_ins(
        program, places, big, signature, actuals, &mut rest, &mut room,
    );
    dropped_facts(alloc, places.void, big, &rest)
}
