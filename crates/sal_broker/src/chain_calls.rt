//! Shared calls of transaction chains, each in one turn.
ghost use Rattle.std.specs.Prelude.{◌≡◌, Some, IfOk};
ghost use Rattle.sal_tx.specs.declared.tx.Tx.{Tx as Token};
ghost use Rattle.sal_history.specs.declared.call.Call.TheVariants.{ChainBegin, CloseChain, OpenChain};
ghost use Rattle.sal_history.specs.declared.reply.Reply.TheVariants.{Accepted, Begun, Chain as Opened};
ghost use Rattle.sal_hub.specs.declared.chain.Chain.{Chain as ChainToken};
ghost use Rattle.sal_hub.specs.Answers.{Calls};
ghost use Rattle.sal_hub.specs.HubHistory.{entry_of};
ghost use Rattle.sal_hub.specs.Tokens.{IsChain, IsFresh, IsToken, begun_of};
ghost use Rattle.sal_broker.specs.Seats.{known};
ghost use Rattle.sal_broker.specs.Turns.{InTurn, Keeps};

use crate::sal::Sal;
use crate::seat::Seat;
use sal_hub::Chain;
use sal_rows::{CallFault, Mode};
use sal_tx::Tx;
use std::alloc::Global;
use std::sync::Wait;

impl Sal {
    /// Opens a transaction chain over the domain.
    pub fn open_chain<R: Wait>(
        &self,
        rt: &R,
        alloc: Global,
        seat: &mut Seat,
        domain: u32,
    ) -> Result<Chain, CallFault>
        requires { seat.old.lock ≡ self.now }
        ensures same { Keeps self.now seat.old seat.new }
        ensures turn { InTurn seat.old.view seat.new.view (λ client found left. Calls found left (entry_of found client (OpenChain domain)) (λ (c : ChainToken). Opened c.id) result) }
        ensures given { IfOk result (IsChain (known seat.new.view)) }
        ensures domain { IfOk result (λ c. c.domain ≡ domain) }
    {
        let mut held = self.take_turn(rt, &mut seat.inner);
        let client = held.number();
        let answer = held.hub().open_chain(alloc, client, domain);
        seat.inner = self.leave(held).inner;
        answer
    }

    /// Begins the next transaction of the chain in the mode: it follows the last submission of the chain while that is pending, and
    /// else its base is the newest commit.
    pub fn chain_begin<R: Wait>(
        &self,
        rt: &R,
        alloc: Global,
        seat: &mut Seat,
        chain: &Chain,
        mode: Mode,
    ) -> Result<Tx, CallFault>
        requires seat { seat.old.lock ≡ self.now }
        requires token { IsChain (known seat.old.view) chain.now }
        ensures same { Keeps self.now seat.old seat.new }
        ensures turn { InTurn seat.old.view seat.new.view (λ client found left. Calls found left (entry_of found client (ChainBegin chain.now.id mode)) (λ (tx : Token). Begun (begun_of tx).base_commit (begun_of tx).on) result × IfOk result (IsFresh found chain.now.domain (Some chain.now.id) mode)) }
        ensures token { IfOk result (IsToken (known seat.new.view)) }
    {
        let mut held = self.take_turn(rt, &mut seat.inner);
        let client = held.number();
        held.knows_chain(chain);
        let answer = held.hub().chain_begin(alloc, client, chain, mode);
        seat.inner = self.leave(held).inner;
        answer
    }

    /// Closes the chain: no transaction begins in it any more.
    pub fn close_chain<R: Wait>(
        &self,
        rt: &R,
        alloc: Global,
        seat: &mut Seat,
        chain: &Chain,
    ) -> Result<(), CallFault>
        requires seat { seat.old.lock ≡ self.now }
        requires token { IsChain (known seat.old.view) chain.now }
        ensures same { Keeps self.now seat.old seat.new }
        ensures turn { InTurn seat.old.view seat.new.view (λ client found left. Calls found left (entry_of found client (CloseChain chain.now.id)) (λ _. Accepted) result) }
    {
        let mut held = self.take_turn(rt, &mut seat.inner);
        let client = held.number();
        held.knows_chain(chain);
        let answer = held.hub().close_chain(alloc, client, chain);
        seat.inner = self.leave(held).inner;
        answer
    }
}
