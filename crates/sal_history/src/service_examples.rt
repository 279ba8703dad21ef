//! Worked examples of RPCs, notifications and mounts. Each function does nothing; its contract states what the definitions give for one
//! log, and the proof computes it.
#![tactic(auto, unfolding(sal_schema::specs::Table::closest, sal_rules::specs::Breaches::first, sal_rules::specs::Contexts::through_plain, sal_rules::specs::Contexts::from_list, sal_rules::specs::Rules::is_there))]

ghost use Rattle.std.specs.Prelude.{◌≡◌, ℕ, List, [], ◌∷◌, length, None, Some, slice_get};
ghost use Rattle.sal_types.specs.declared.row.Row.{Row};
ghost use Rattle.sal_types.specs.declared.value.Store.TheVariants.{Config};
ghost use Rattle.sal_rows.specs.declared.outcome.CallFault.TheVariants.{ChainFailed, DeviceUsed, NoCall, NoDomain, NoListener, NoProvider, NoteRejected, ProviderTaken};
ghost use Rattle.sal_rows.specs.declared.outcome.ClashKind.TheVariants.{Created};
ghost use Rattle.sal_rows.specs.declared.outcome.Outcome.TheVariants.{Conflict, Done, Unmounted, ChainFailed as FailedBy};
ghost use Rattle.sal_note.specs.Queues.{queue, subscribers};
ghost use Rattle.sal_history.specs.declared.call.Call.TheVariants.{Answer, Collect, Invoke, Listen, Mount, MountAt as Asks, NextCall, Offer, OpenChain, Provide, Settle, Submit, Subscribe, Take, TakeNotes, Unlisten, Unmount, Withdraw};
ghost use Rattle.sal_history.specs.declared.reply.Reply.TheVariants.{Accepted, Begun, CallMade, Chain, Listener, MountAt, Nothing, Notes, Offered, Output, Receipt, Refused, Request, Settled};
ghost use Rattle.sal_history.specs.Chains.{chain};
ghost use Rattle.sal_history.specs.Examples.{a, b, begin, by, leaf, opened, put, replies};
ghost use Rattle.sal_history.specs.History.{Answered, chain_domains, history, newest_tree, reply_to};
ghost use Rattle.sal_history.specs.Numbered.{numbered};
ghost use Rattle.sal_history.specs.ServiceExamples.{across, devices, failed_before, failed_by_it, filled, mount, on_device, one, two};
ghost use Rattle.sal_history.specs.Services.{noted};

/// A request goes to the registration for its exact context, or else to the one without a context, in any order of registration.
pub fn the_exact_context_goes_first()
    ensures { replies (opened []) (by 0 (Provide 5 None) ∷ by 1 (Provide 5 (Some a)) ∷ by 2 (Invoke 5 (Some a) one) ∷ by 2 (Invoke 5 (Some b) two)
        ∷ by 1 NextCall ∷ by 0 NextCall ∷ by 1 NextCall ∷ [])
        ≡ Accepted ∷ Accepted ∷ CallMade 1 ∷ CallMade 2
        ∷ Request (record { id = 1; rpc = 5; context = Some a; input = one }) ∷ Request (record { id = 2; rpc = 5; context = Some b; input = two }) ∷ Nothing ∷ [] }
{}

/// A request stays with its provider, also after the provider's withdrawal; the next one finds no provider.
pub fn a_withdrawal_after_an_invocation()
    ensures { replies (opened []) (by 1 (Provide 5 None) ∷ by 2 (Provide 5 None) ∷ by 0 (Invoke 5 None one) ∷ by 1 (Withdraw 5 None) ∷ by 0 (Invoke 5 None two) ∷ by 1 NextCall ∷ [])
        ≡ Accepted ∷ Refused (ProviderTaken 5) ∷ CallMade 1 ∷ Accepted ∷ Refused (NoProvider 5) ∷ Request (record { id = 1; rpc = 5; context = None; input = one }) ∷ [] }
{}

/// Only the client that took a request can answer it.
pub fn an_answer_of_another_client()
    ensures { replies (opened []) (by 1 (Provide 5 None) ∷ by 0 (Invoke 5 None one) ∷ by 1 NextCall ∷ by 0 (Answer 1 two) ∷ by 1 (Answer 1 two) ∷ [])
        ≡ Accepted ∷ CallMade 1 ∷ Request (record { id = 1; rpc = 5; context = None; input = one }) ∷ Refused (NoCall 1) ∷ Accepted ∷ [] }
{}

/// The client that made a request collects nothing before it is answered, and the answer afterwards. No other client collects it.
pub fn collected_before_and_after_the_answer()
    ensures { replies (opened []) (by 1 (Provide 5 None) ∷ by 0 (Invoke 5 None one) ∷ by 0 (Collect 1) ∷ by 1 NextCall ∷ by 1 (Answer 1 two) ∷ by 0 (Collect 1) ∷ by 1 (Collect 1) ∷ [])
        ≡ Accepted ∷ CallMade 1 ∷ Nothing ∷ Request (record { id = 1; rpc = 5; context = None; input = one }) ∷ Accepted ∷ Output 5 two ∷ Refused (NoCall 1) ∷ [] }
{}

/// A client that subscribes between two offers gets only the second one.
pub fn subscribed_between_two_offers()
    ensures { replies (opened []) (by 1 (Subscribe 5) ∷ by 0 (Offer 5 one) ∷ by 2 (Subscribe 5) ∷ by 0 (Offer 5 two) ∷ by 1 TakeNotes ∷ by 2 TakeNotes ∷ by 1 TakeNotes ∷ [])
        ≡ Accepted ∷ Offered 1 ∷ Accepted ∷ Offered 2 ∷ Notes (record { note = 5; rows = one } ∷ record { note = 5; rows = two } ∷ []) ∷ Notes (record { note = 5; rows = two } ∷ []) ∷ Notes [] ∷ [] }
{}

/// The 65th notification that would wait for one of two subscribers is refused as a whole: the other does not get it, either. If both
/// queues are full, the subscriber with the smaller number is named.
pub fn a_full_queue()
    ensures refused { slice_get (replies (opened []) filled) 66 ≡ Some (Refused (NoteRejected 1)) }
    ensures other { slice_get (replies (opened []) filled) 67 ≡ Some (Notes (record { note = 5; rows = one } ∷ [])) }
    ensures first { (answered : List Answered) (client : ℕ) (rows : List Row) → subscribers (noted answered) 5 ≡ 1 ∷ 2 ∷ [] → length (queue (noted answered) 1) ≡ 64
        → reply_to (opened []) answered client (Offer 5 rows) ≡ Refused (NoteRejected 1) }
    ensures second { (answered : List Answered) (client : ℕ) (rows : List Row) → subscribers (noted answered) 5 ≡ 1 ∷ 2 ∷ [] → length (queue (noted answered) 1) ≡ 63 → length (queue (noted answered) 2) ≡ 64
        → reply_to (opened []) answered client (Offer 5 rows) ≡ Refused (NoteRejected 2) }
    ensures room { (answered : List Answered) (client : ℕ) (rows : List Row) → subscribers (noted answered) 5 ≡ 1 ∷ 2 ∷ [] → length (queue (noted answered) 1) ≡ 63 → length (queue (noted answered) 2) ≡ 63
        → reply_to (opened []) answered client (Offer 5 rows) ≡ Offered 2 }
{}

/// A device is mounted, unmounted, and not mounted again. The controller's own domain is no device.
pub fn a_device_is_mounted_once()
    ensures { replies devices (by 0 mount ∷ by 1 (Asks a) ∷ by 0 (Mount b 1) ∷ by 0 (Unmount 1) ∷ by 1 (Asks a) ∷ by 0 mount ∷ by 0 (Unmount 1) ∷ by 0 (Mount a 0) ∷ by 0 (Mount a 2) ∷ [])
        ≡ Accepted ∷ MountAt (Some 1) ∷ Refused (DeviceUsed 1) ∷ Accepted ∷ MountAt None ∷ Refused (DeviceUsed 1) ∷ Refused (NoDomain 1) ∷ Refused (NoDomain 0) ∷ Refused (NoDomain 2) ∷ [] }
{}

/// A domain that is not live begins no transaction, opens no chain and has no new listener: before its mount, and after its unmount.
pub fn a_domain_that_is_not_live()
    ensures before { replies devices (by 0 on_device ∷ by 0 (OpenChain 1) ∷ by 0 (Listen 1 Config a) ∷ []) ≡ Refused (NoDomain 1) ∷ Refused (NoDomain 1) ∷ Refused (NoDomain 1) ∷ [] }
    ensures mounted { replies devices (by 0 mount ∷ by 1 (OpenChain 1) ∷ by 1 chain ∷ by 0 on_device ∷ []) ≡ Accepted ∷ Chain 1 ∷ Begun 0 None ∷ Begun 0 None ∷ [] }
    ensures after { replies devices (by 0 mount ∷ by 1 (OpenChain 1) ∷ by 0 (Unmount 1) ∷ by 1 chain ∷ by 0 on_device ∷ by 0 (Listen 1 Config a) ∷ [])
        ≡ Accepted ∷ Chain 1 ∷ Accepted ∷ Refused (NoDomain 1) ∷ Refused (NoDomain 1) ∷ Refused (NoDomain 1) ∷ [] }
{}

/// A submission that was pending when its domain was unmounted is not done. One that is submitted after the unmount has a
/// receipt, and is not done either. Earlier commits stay.
pub fn submissions_of_an_unmounted_domain()
    ensures replies { replies devices across
        ≡ Accepted ∷ Begun 0 None ∷ Begun 0 None ∷ Receipt 1 ∷ Accepted ∷ Receipt 2 ∷ Settled 1 (Unmounted 1) ∷ Settled 1 (Unmounted 1) ∷ [] }
    ensures tree { newest_tree devices across 1 Config ≡ [] }
    ensures done { replies devices (by 0 mount ∷ by 1 on_device ∷ by 1 (Submit 1 (put a "x" ∷ [])) ∷ by 1 (Settle 1) ∷ by 0 (Unmount 1) ∷ by 1 (Settle 1) ∷ [])
        ≡ Accepted ∷ Begun 0 None ∷ Receipt 1 ∷ Settled 1 (Done 1) ∷ Accepted ∷ Settled 1 (Done 1) ∷ [] }
    ensures stays { newest_tree devices (by 0 mount ∷ by 1 on_device ∷ by 1 (Submit 1 (put a "x" ∷ [])) ∷ by 1 (Settle 1) ∷ by 0 (Unmount 1) ∷ []) 1 Config ≡ leaf a "x" ∷ [] }
{}

/// The failure of its chain is reported before the unmount of its domain. A submission to an unmounted domain also makes its chain fail.
pub fn a_chain_over_an_unmounted_domain()
    ensures before { replies devices failed_before
        ≡ Accepted ∷ Chain 1 ∷ Begun 0 None ∷ Begun 0 None ∷ Receipt 1 ∷ Receipt 2 ∷ Begun 0 (Some 2) ∷ Receipt 3 ∷ Settled 1 (Conflict Config a Created 1) ∷ Accepted ∷ Settled 1 (FailedBy 2) ∷ [] }
    ensures by_it { replies devices failed_by_it
        ≡ Accepted ∷ Chain 1 ∷ Begun 0 None ∷ Receipt 1 ∷ Begun 0 (Some 1) ∷ Receipt 2 ∷ Accepted ∷ Settled 1 (FailedBy 1) ∷ Settled 1 (Unmounted 1) ∷ Refused (ChainFailed 1) ∷ [] }
{}

/// Ids are numbered from 1 on: 0 is the id of no listener, request and chain, and no receipt, also where the first of each was given.
pub fn no_id_is_zero()
    ensures listener { replies (opened []) (by 0 (Listen 0 Config a) ∷ by 0 (Take 0) ∷ by 0 (Unlisten 0) ∷ by 0 (Unlisten 1) ∷ [])
        ≡ Listener 1 0 a (record { version = 0; rows = [] }) ∷ Refused (NoListener 0) ∷ Refused (NoListener 0) ∷ Accepted ∷ [] }
    ensures request { replies (opened []) (by 0 (Provide 5 None) ∷ by 0 (Invoke 5 None one) ∷ by 0 NextCall ∷ by 0 (Answer 0 two) ∷ by 0 (Collect 0) ∷ by 0 (Answer 1 two) ∷ [])
        ≡ Accepted ∷ CallMade 1 ∷ Request (record { id = 1; rpc = 5; context = None; input = one }) ∷ Refused (NoCall 0) ∷ Refused (NoCall 0) ∷ Accepted ∷ [] }
    ensures chain { numbered (chain_domains (history devices (by 0 mount ∷ by 0 (OpenChain 1) ∷ []))) 0 ≡ None }
    ensures first { numbered (chain_domains (history devices (by 0 mount ∷ by 0 (OpenChain 1) ∷ []))) 1 ≡ Some 1 }
    ensures receipt { replies (opened []) (by 0 begin ∷ by 0 (Submit 0 (put a "1" ∷ [])) ∷ by 0 (Settle 0) ∷ by 0 (Settle 1) ∷ [])
        ≡ Begun 0 None ∷ Receipt 1 ∷ Receipt 0 ∷ Settled 0 (Done 1) ∷ [] }
{}
