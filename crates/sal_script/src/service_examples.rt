//! Worked examples of RPCs, notifications, mounts and devices in scripts. Each function does nothing; its contract states what the
//! definitions give, and the proof computes it.
ghost use Rattle.std.specs.Prelude.{◌≡◌, [], ◌∷◌, None, Some, Ok, Err, codes};
ghost use Rattle.serde_json.specs.Data.{no_members, null, object};
ghost use Rattle.sal_script.specs.Moves.{Provide, Withdraw, Invoke, NextCall, Answer, Collect, Subscribe, Offer, TakeNotes, Mount, Unmount, MountAt};
ghost use Rattle.sal_script.specs.Script.{script_of};
ghost use Rattle.sal_script.specs.Examples.{plain_script};
ghost use Rattle.sal_script.specs.ServiceExamples.{alone, answers, asks, asks_replies, at_device, at_device_replies, device_of, refused_locally, refused_replies, serves, serves_replies, with_device};

/// The steps of RPCs, notifications and mounts; and arrays that are none.
pub fn service_steps_read()
    ensures rpcs { script_of (codes "{\"clients\":[{\"steps\":[[\"provide\",\"m:r\",null],[\"withdraw\",\"m:r\",\"/\"],[\"invoke\",255,\"m:r\",\"\",{}],[\"next-call\",0],[\"answer\",1,null],[\"collect\",2]]}]}") ≡ Ok (plain_script ((Provide (codes "m:r") None ∷ Withdraw (codes "m:r") (Some (codes "/")) ∷ Invoke 255 (codes "m:r") (Some []) (object no_members) ∷ NextCall 0 ∷ Answer 1 null ∷ Collect 2 ∷ []) ∷ []) []) }
    ensures others { script_of (codes "{\"clients\":[{\"steps\":[[\"subscribe\",\"m:n\"],[\"offer\",\"m:n\",{}],[\"take-notes\"],[\"mount\",1,\"/\"],[\"unmount\",4294967295],[\"mount-at\",\"/\"]]}]}") ≡ Ok (plain_script ((Subscribe (codes "m:n") ∷ Offer (codes "m:n") (object no_members) ∷ TakeNotes ∷ Mount 1 (codes "/") ∷ Unmount 4294967295 ∷ MountAt (codes "/") ∷ []) ∷ []) []) }
    ensures context { script_of (codes "{\"clients\":[{\"steps\":[[\"provide\",\"m:r\",0]]}]}") ≡ Err (codes "clients/0/0") }
    ensures fewer { script_of (codes "{\"clients\":[{\"steps\":[[\"take-notes\"],[\"provide\",\"m:r\"]]}]}") ≡ Err (codes "clients/0/1") }
{}

/// Devices, and the first fault among them: each before the clients, and the array before its first.
pub fn devices_read()
    ensures two { script_of (codes "{\"devices\":[{\"modules\":[]},{\"modules\":[\"m\"],\"config\":{}}]}") ≡ Ok (record (plain_script [] []) { devices = device_of [] ∷ device_of (codes "m" ∷ []) ∷ [] }) }
    ensures no_array { script_of (codes "{\"clients\":0,\"devices\":{}}") ≡ Err (codes "devices") }
    ensures no_modules { script_of (codes "{\"clients\":0,\"devices\":[{\"modules\":[]},{}]}") ≡ Err (codes "devices/1") }
    ensures no_text { script_of (codes "{\"devices\":[{\"modules\":[0]},0]}") ≡ Err (codes "devices/0") }
    ensures no_object { script_of (codes "{\"devices\":[{\"modules\":[],\"config\":[]}]}") ≡ Err (codes "devices/0") }
    ensures unknown { script_of (codes "{\"devices\":[{\"modules\":[],\"clients\":[]}]}") ≡ Err (codes "devices/0") }
    ensures behind_its_own { script_of (codes "{\"config\":0,\"devices\":0}") ≡ Err (codes "config") }
{}

/// A request goes to the client that provides the RPC, into its slot, and its client collects the answer.
pub fn a_request_is_answered()
    ensures { answers alone (serves ∷ asks ∷ []) (0 ∷ 1 ∷ 1 ∷ 0 ∷ 0 ∷ 1 ∷ []) ≡ serves_replies ∷ asks_replies ∷ [] }
{}

/// A step that the client refuses itself makes no call. The slot is checked before the name, and that before the path and the value.
pub fn refused_without_a_call()
    ensures { answers alone (refused_locally ∷ []) [] ≡ refused_replies ∷ [] }
{}

/// Paths and values in a device's domain are read by that device's schema.
pub fn written_by_the_devices_schema()
    ensures { answers with_device (at_device ∷ []) (0 ∷ 0 ∷ 0 ∷ []) ≡ at_device_replies ∷ [] }
{}
