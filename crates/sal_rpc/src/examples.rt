//! Worked examples of the router. Each function does nothing; its contract states what the definitions give for some calls, and the
//! proof computes it. The RPC is 5; contexts are the paths of the nodes 1 and 2.
#![tactic(auto)]

ghost use Rattle.std.specs.Prelude.{◌≡◌, [], ◌∷◌, None, Some, false, true};
ghost use Rattle.sal_rpc.specs.declared.call.RpcCall.TheVariants.{Provide, Withdraw, Invoke, NextCall, Answer, Collect};
ghost use Rattle.sal_rpc.specs.declared.call.RpcFault.TheVariants.{NoProvider, ProviderTaken, NoCall};
ghost use Rattle.sal_rpc.specs.declared.call.RpcReply.TheVariants.{Accepted, CallMade, Handed, Output, Nothing, Refused};
ghost use Rattle.sal_rpc.specs.Examples.{by, gets, replies, rows, there};

/// The registration for the exact context is used before the one without a context, which serves all others.
pub fn the_exact_context_goes_first()
    ensures { replies (by 1 (Provide 5 (Some (there 1))) ∷ by 2 (Provide 5 None) ∷ by 0 (Invoke 5 (Some (there 1)) (rows 8)) ∷ by 0 (Invoke 5 (Some (there 2)) (rows 9))
        ∷ by 1 NextCall ∷ by 2 NextCall ∷ by 1 NextCall ∷ [])
        ≡ Accepted ∷ Accepted ∷ CallMade 1 ∷ CallMade 2
        ∷ Handed (record { id = 1; rpc = 5; context = Some (there 1); input = rows 8 }) ∷ Handed (record { id = 2; rpc = 5; context = Some (there 2); input = rows 9 }) ∷ Nothing ∷ [] }
{}

/// A request stays with its provider, also after that client withdraws; the next one finds no provider.
pub fn a_withdrawal_after_a_request()
    ensures { replies (by 1 (Provide 5 None) ∷ by 0 (Invoke 5 None (rows 8)) ∷ by 1 (Withdraw 5 None) ∷ by 0 (Invoke 5 None (rows 9)) ∷ by 1 NextCall ∷ [])
        ≡ Accepted ∷ CallMade 1 ∷ Accepted ∷ Refused (NoProvider 5) ∷ Handed (record { id = 1; rpc = 5; context = None; input = rows 8 }) ∷ [] }
{}

/// Only the client that has taken a request can answer it, and only once.
pub fn an_answer_of_another_client()
    ensures { replies (by 1 (Provide 5 None) ∷ by 0 (Invoke 5 None (rows 8)) ∷ by 1 (Answer 1 (rows 7)) ∷ by 1 NextCall ∷ by 2 (Answer 1 (rows 7)) ∷ by 1 (Answer 1 (rows 7)) ∷ by 1 (Answer 1 (rows 6)) ∷ by 0 (Collect 1) ∷ [])
        ≡ Accepted ∷ CallMade 1 ∷ Refused (NoCall 1) ∷ Handed (record { id = 1; rpc = 5; context = None; input = rows 8 }) ∷ Refused (NoCall 1) ∷ Accepted ∷ Refused (NoCall 1) ∷ Output (rows 7) ∷ [] }
{}

/// A request is collected by the client that made it: before the answer it has no result, and after it the same rows each time.
pub fn collected_before_and_behind()
    ensures { replies (by 1 (Provide 5 None) ∷ by 0 (Invoke 5 None (rows 8)) ∷ by 0 (Collect 1) ∷ by 1 NextCall ∷ by 1 (Answer 1 (rows 7)) ∷ by 0 (Collect 1) ∷ by 0 (Collect 1) ∷ by 2 (Collect 1) ∷ by 0 (Collect 2) ∷ [])
        ≡ Accepted ∷ CallMade 1 ∷ Nothing ∷ Handed (record { id = 1; rpc = 5; context = None; input = rows 8 }) ∷ Accepted ∷ Output (rows 7) ∷ Output (rows 7) ∷ Refused (NoCall 1) ∷ Refused (NoCall 2) ∷ [] }
{}

/// An RPC has one provider for each context, and only its own client can withdraw it.
pub fn one_provider_for_each_context()
    ensures { replies (by 1 (Provide 5 None) ∷ by 2 (Provide 5 None) ∷ by 2 (Provide 5 (Some (there 1))) ∷ by 2 (Provide 6 None) ∷ by 2 (Withdraw 5 None) ∷ by 1 (Withdraw 5 None) ∷ by 2 (Provide 5 None) ∷ [])
        ≡ Accepted ∷ Refused (ProviderTaken 5) ∷ Accepted ∷ Accepted ∷ Refused (NoProvider 5) ∷ Accepted ∷ Accepted ∷ [] }
{}

/// A request waits for its provider until that client takes it, and its answer for the client that made it from the answer on.
pub fn waits_for_its_provider_and_its_client()
    ensures made { gets (by 1 (Provide 5 None) ∷ by 0 (Invoke 5 None (rows 8)) ∷ []) 1 NextCall ≡ true }
    ensures other { gets (by 1 (Provide 5 None) ∷ by 0 (Invoke 5 None (rows 8)) ∷ []) 0 NextCall ≡ false }
    ensures taken { gets (by 1 (Provide 5 None) ∷ by 0 (Invoke 5 None (rows 8)) ∷ by 1 NextCall ∷ []) 1 NextCall ≡ false }
    ensures open { gets (by 1 (Provide 5 None) ∷ by 0 (Invoke 5 None (rows 8)) ∷ by 1 NextCall ∷ []) 0 (Collect 1) ≡ false }
    ensures answered { gets (by 1 (Provide 5 None) ∷ by 0 (Invoke 5 None (rows 8)) ∷ by 1 NextCall ∷ by 1 (Answer 1 (rows 7)) ∷ []) 0 (Collect 1) ≡ true }
    ensures provider { gets (by 1 (Provide 5 None) ∷ by 0 (Invoke 5 None (rows 8)) ∷ by 1 NextCall ∷ by 1 (Answer 1 (rows 7)) ∷ []) 1 (Collect 1) ≡ false }
{}
