//! Laws of the tokens. The functions do nothing; their contracts are the laws.
ghost use Rattle.std.specs.Prelude.{◌≡◌};
ghost use Rattle.sal_rows.specs.declared.outcome.Mode.{Mode};
ghost use Rattle.sal_history.specs.declared.call.Entry.{Entry};
ghost use Rattle.sal_tree.specs.declared.commit.Pair.{Pair};
ghost use Rattle.sal_tx.specs.declared.begun.Begun.{Begun};
ghost use Rattle.sal_hub.specs.declared.call_id.CallId.{CallId};
ghost use Rattle.sal_hub.specs.declared.chain.Chain.{Chain};
ghost use Rattle.sal_history.specs.Listeners.{Listening};
ghost use Rattle.sal_hub.specs.declared.listener.ListenerId.{ListenerId};
ghost use Rattle.sal_hub.specs.declared.receipt.Receipt.{Receipt};
ghost use Rattle.sal_hub.specs.HubHistory.{HubHistory, more};
ghost use Rattle.sal_hub.specs.Listeners.{IsMade};
ghost use Rattle.sal_hub.specs.Tokens.{AreAlike, IsBegun, IsCall, IsChain, IsGiven, IsListener};

/// A token stays one when the log grows: a transaction that began, a given receipt, an opened chain, a listener and a request
/// stay such.
pub fn tokens_last()
    ensures begun { (known : HubHistory) (e : Entry) (begun : Begun) (mode : Mode) (base : Pair) → IsBegun known begun mode base → IsBegun (more known e) begun mode base }
    ensures given { (known : HubHistory) (e : Entry) (receipt : Receipt) → IsGiven known receipt → IsGiven (more known e) receipt }
    ensures opened { (known : HubHistory) (e : Entry) (chain : Chain) → IsChain known chain → IsChain (more known e) chain }
    ensures listener { (known : HubHistory) (e : Entry) (id : ListenerId) → IsListener known id → IsListener (more known e) id }
    ensures called { (known : HubHistory) (e : Entry) (id : CallId) → IsCall known id → IsCall (more known e) id }
    ensures made { (known : HubHistory) (e : Entry) (id : ListenerId) (l : Listening) → IsMade known id l → IsMade (more known e) id l }
{}

/// Transactions that one entry began agree in everything that the log defines. So a transaction of one mode is none of another: a reading
/// transaction cannot be turned into a writing one.
pub fn tokens_agree()
    ensures { (known : HubHistory) (a b : Begun) (mode mode' : Mode) (trees trees' : Pair) → a.place ≡ b.place → IsBegun known a mode trees → IsBegun known b mode' trees' → AreAlike a b mode mode' trees trees' }
{}
