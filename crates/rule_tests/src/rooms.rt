//! A home of three rooms: which they are, what each has of a window, and which windows are refused.
//! What is expected was found by an independent program.
ghost use Rattle.routine_reader.specs.Scripts.{plain_script};
ghost use Rattle.routine_reader.specs.Sound.{IsSound};
ghost use Rattle.std.specs.Prelude.{IfOk};

use home_types::{DeviceNo, Job, RunNo};
use room_hubs::{SplitFault, rooms, split};
use routine_reader::{ReadFault, Script, read_script};
use std::alloc::Global;

const SCRIPT: &str =
    "{\"safehome\":1,\"devices\":[{\"name\":\"hall_lamp\",\"states\":[\"off\",\"on\"],\
    \"start\":\"off\"},\
    {\"name\":\"bed_lamp\",\"states\":[\"off\",\"on\"],\"start\":\"off\"},\
    {\"name\":\"hall_fan_top\",\"states\":[\"off\",\"on\"],\"start\":\"off\"},\
    {\"name\":\"den\",\"low\":0,\"high\":9,\"start\":3}],\"routines\":[\
    {\"name\":\"sleep\",\"commands\":[{\"on\":\"bed_lamp\",\"do\":\"set\",\"to\":\"on\"}]},\
    {\"name\":\"air\",\"commands\":[{\"on\":\"hall_fan_top\",\"do\":\"set\",\"to\":\"on\"},\
    {\"on\":\"hall_lamp\",\"do\":\"load\"}]},\
    {\"name\":\"leave\",\"commands\":[{\"on\":\"hall_lamp\",\"do\":\"set\",\"to\":\"off\"},\
    {\"on\":\"den\",\"do\":\"set\",\"to\":9}]}],\"windows\":[\
    {\"at\":\"2021-04-26T07:00:00\",\"runs\":[{\"routine\":\"sleep\"},{\"routine\":\"air\"},\
    {\"routine\":\"air\",\"follows\":2}]},\
    {\"at\":\"2021-04-26T08:00:00\",\"runs\":[{\"routine\":\"sleep\"},\
    {\"routine\":\"air\",\"follows\":1},{\"routine\":\"leave\"}]},\
    {\"at\":\"2021-04-26T09:00:00\",\"runs\":[{\"routine\":\"sleep\"},\
    {\"routine\":\"leave\",\"follows\":1}]}]}";

fn script(alloc: Global) -> Result<Script, ReadFault>
    ensures { IfOk result (λ script. IsSound (plain_script script)) }
{
    read_script(alloc, SCRIPT.as_bytes())
}

#[test]
fn splits_a_window(rt: HostRuntime) {
    let script = script(rt.alloc()).expect(&rt, "a script");
    let rooms = rooms(rt.alloc(), &script).expect(&rt, "memory");
    let names = rooms.names.as_slice();
    assert!(rt; names.len() == 3 && names[0].as_str() == "hall");
    assert!(rt; names[1].as_str() == "bed" && names[2].as_str() == "den");
    assert!(rt; rooms.room_of.as_slice() == [0, 1, 0, 2].as_slice());

    assert!(rt; script.windows.len() == 3);
    let rosters = split(rt.alloc(), &script, &rooms, 0).expect(&rt, "a split");
    assert!(rt; rosters.len() == 3);
    let hall = rosters.get(0).expect(&rt, "the hall");
    assert!(rt; hall.devices.as_slice() == [DeviceNo(0), DeviceNo(2)].as_slice());
    assert!(rt; hall.runs.as_slice() == [RunNo(2), RunNo(3)].as_slice());
    assert!(rt; hall.roster.runs.len() == 2);
    let last = hall.roster.runs.get(1).expect(&rt, "a run");
    assert!(rt; last.follows == Some(RunNo(1)));
    let commands = last.routine.commands.as_slice();
    assert!(rt; commands.len() == 2 && commands[0].device == DeviceNo(1));
    assert!(rt; commands[1].device == DeviceNo(0) && commands[1].job == Job::Load);
    let den = rosters.get(2).expect(&rt, "the den");
    assert!(rt; den.room == 2 && den.runs.len() == 0);
}

#[test]
fn refuses_what_crosses(rt: HostRuntime) {
    let script = script(rt.alloc()).expect(&rt, "a script");
    let rooms = rooms(rt.alloc(), &script).expect(&rt, "memory");
    assert!(rt; script.windows.len() == 3);
    let follows = split(rt.alloc(), &script, &rooms, 1).err();
    assert!(rt; follows == Some(SplitFault::CrossFollow(RunNo(2))));
    let two_rooms = split(rt.alloc(), &script, &rooms, 2).err();
    assert!(rt; two_rooms == Some(SplitFault::CrossRoom(RunNo(2))));
}
