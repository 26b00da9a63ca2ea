//! A seat's turn: the peer is taken out of its slot, and put back.

ghost use Rattle.std.specs.Prelude.{◌≡◌, [], ◌∷◌, None, IfOk, IfErr};
ghost use Rattle.tp_call.specs.Calls.{call_in, reply_of};
ghost use Rattle.tp_peer.specs.PeerState.{PeerState};
ghost use Rattle.tp_served.specs.Seats.{SeatKnowledge, gave, missed_by};
ghost use Rattle.tp_served.specs.Rule.{idle_seat, holding_seat};
ghost use Rattle.tp_served.specs.Steps.{StepsAsSeat};
ghost use Rattle.tp_served.specs.Calls.{EndsTurn, EndsVisit, IsOnlyOn, IsTurn};

use crate::rule::{Give, Take, View};
use crate::served::Served;
use crate::visitor::Visitor;
use atomic_table::{Badge, Seat as Token};
use tp_call::{Reply, Request};
use tp_journal::Journal;
use tp_peer::Peer;

/// The peer, out with the seat that has its turn. It ends in `give`.
pub(crate) struct Turn<J: Journal> {
    pub(crate) token: Token<Option<Peer<J>>, View>,
    pub(crate) peer: Peer<J>,
}

impl<J: Journal> Served<J> {
    /// Takes the peer for the seat, by one compare-exchange. Where the word was taken the seat comes back.
    pub(crate) fn take(&self, badge: Badge<View>) -> Result<Turn<J>, Badge<View>>
        requires served { badge.table_id ≡ self.now.served }
        requires seat { (t : SeatKnowledge) × (badge.views ≡ idle_seat t ∷ []) }
        ensures taken { IfOk result (λ turn. (turn.token.table_id ≡ self.now.served)
            × ((t : SeatKnowledge) → badge.views ≡ idle_seat t ∷ [] → IsTurn t turn.token.me turn.peer)) }
        ensures missed { IfErr result (λ back. (back.table_id ≡ self.now.served)
            × ((t : SeatKnowledge) → badge.views ≡ idle_seat t ∷ []
            → back.views ≡ idle_seat (missed_by 1 t) ∷ [])) }
    {
        let mut token = badge.into_seat();
        let shared = &self.table.shared;
        if shared.compare_exchange::<Take>(&mut token, 0, 0, 1) != 0 {
            return Err(token.into_badge());
        }
        match shared.exchange(&mut token, 0, None) {
            Some(peer) => Ok(Turn { token, peer }),
            None => unreachable!(),
        }
    }

    /// Gives the peer back, by one store.
    pub(crate) fn give(&self, turn: Turn<J>) -> Badge<View>
        requires served { turn.token.table_id ≡ self.now.served }
        requires turn { (t : SeatKnowledge) × (p : PeerState)
            × (turn.token.me ≡ (holding_seat p t, (0, None) ∷ [])) × StepsAsSeat t.number p turn.peer }
        ensures served { result.table_id ≡ self.now.served }
        ensures given { (t : SeatKnowledge) (p : PeerState) → turn.token.me ≡ (holding_seat p t, (0, None) ∷ [])
            → result.views ≡ idle_seat (gave p turn.peer t) ∷ [] }
    {
        let Turn { mut token, peer } = turn;
        let shared = &self.table.shared;
        drop(shared.exchange(&mut token, 0, Some(peer)));
        shared.store::<Give>(&mut token, 0, 0);
        token.into_badge()
    }

    /// Has the peer answer on the seat's turn, and ends it.
    pub(crate) fn call_on(&self, turn: Turn<J>, request: Request) -> (Badge<View>, Reply)
        requires served { turn.token.table_id ≡ self.now.served }
        requires turn { (t : SeatKnowledge) × IsTurn t turn.token.me turn.peer
            × IsOnlyOn t.number (call_in request) }
        ensures served { result.0.table_id ≡ self.now.served }
        ensures ends { (t : SeatKnowledge) → IsTurn t turn.token.me turn.peer
            → EndsTurn t (call_in request.entry) (reply_of result.1) result.0.views }
    {
        let Turn { token, mut peer } = turn;
        let reply = request.ask(&mut peer);
        (self.give(Turn { token, peer }), reply)
    }

    /// Lends the peer to a visitor on the seat's turn, and ends it.
    pub(crate) fn visit_on<V: Visitor<J>>(
        &self,
        turn: Turn<J>,
        visitor: &V,
    ) -> (Badge<View>, V::Answer)
        requires served { turn.token.table_id ≡ self.now.served }
        requires turn { (t : SeatKnowledge) × IsTurn t turn.token.me turn.peer }
        ensures served { result.0.table_id ≡ self.now.served }
        ensures ends { (t : SeatKnowledge) → IsTurn t turn.token.me turn.peer
            → EndsVisit t (V.does visitor.now) result.0.views }
    {
        let Turn { token, mut peer } = turn;
        let answer = visitor.visit(&mut peer);
        (self.give(Turn { token, peer }), answer)
    }
}
