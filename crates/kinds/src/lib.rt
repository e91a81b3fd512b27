// All record kinds as one registry, what it serves, and worked examples.
#![tactic(auto)]

ghost use Rattle.std.specs.Prelude.{◌≡◌};
ghost use Rattle.kinds.specs.Examples.{Examples};
ghost use Rattle.records.specs.Services.{sharing_of};
ghost use Rattle.kinds.specs.Table.{standard_service};

use frames::Framed;
use kind_analog::Analog;
use kind_bytes::{LoggedEthernet, LoggedUart, PlainBytes};
use kind_can::{LoggedCan, LoggedCanFd, ReplayCan, ReplayCanFd};
use kind_flexray::{LoggedFlexRay, ReplayFlexRay};
use kind_lin::{LoggedLin, ReplayLin};
use records::registry::{Chain, Single};
use records::{Code, Registry};

type Frames<K> = Single<Framed<K>>;

type Plain<K> = Single<PlainBytes<K>>;

type Buses<Can, CanFd, Lin, FlexRay> = Chain<
    Chain<Frames<Can>, Frames<CanFd>>,
    Chain<Frames<Lin>, Frames<FlexRay>>,
>;

type Logged = Chain<
    Buses<LoggedCan, LoggedCanFd, LoggedLin, LoggedFlexRay>,
    Chain<Single<Analog>, Chain<Plain<LoggedUart>, Plain<LoggedEthernet>>>,
>;

type Replay = Buses<ReplayCan, ReplayCanFd, ReplayLin, ReplayFlexRay>;

// The registry of all eleven kinds.
pub type Standard = Chain<Logged, Replay>;

pub const STANDARD: Standard = Chain {
    left: Chain {
        left: Chain {
            left: Chain {
                left: Single {
                    kind: Framed(LoggedCan),
                },
                right: Single {
                    kind: Framed(LoggedCanFd),
                },
            },
            right: Chain {
                left: Single {
                    kind: Framed(LoggedLin),
                },
                right: Single {
                    kind: Framed(LoggedFlexRay),
                },
            },
        },
        right: Chain {
            left: Single { kind: Analog },
            right: Chain {
                left: Single {
                    kind: PlainBytes(LoggedUart),
                },
                right: Single {
                    kind: PlainBytes(LoggedEthernet),
                },
            },
        },
    },
    right: Chain {
        left: Chain {
            left: Single {
                kind: Framed(ReplayCan),
            },
            right: Single {
                kind: Framed(ReplayCanFd),
            },
        },
        right: Chain {
            left: Single {
                kind: Framed(ReplayLin),
            },
            right: Single {
                kind: Framed(ReplayFlexRay),
            },
        },
    },
};

// Whether entries of a code share packets, if it is served. A theorem besides: by which rule the registry serves each code.
pub fn standard_sharing(code: Code) -> Option<bool>
    ensures sharing { result ≡ sharing_of (standard_service code) }
    ensures services { ⟦<Standard as Registry>⟧.services STANDARD code ≡ standard_service code }
{
    STANDARD.sharing(code)
}

// The worked examples.
pub fn examples_hold()
    ensures { Examples }
{}
