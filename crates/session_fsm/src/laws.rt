//! Laws of the table and the timers, for every session and every run of events, seconds and UPDATEs sent.

ghost use Rattle.session_fsm.specs.Laws.{ActsInEstablishedAlone, UpEntersEstablished, DownLeavesEstablished, UpAndDownTakeTurns, NothingIsActedOnAfterAClose, LeavingForIdleHangsUp, HoldTimeZeroNeverExpires, HoldTimerExpiresAfterSilence, RestartWaitsForAStart, EachTimerRunsInItsStates, HoldTimerRunsOut, KeepaliveTimerRunsOut, ConnectRetryTimerRunsOut, RestartTimerRunsOut};
ghost use Rattle.std.specs.Prelude.{◌≡◌};
ghost use Rattle.session_fsm.specs.declared.session.table.TheConstants.{CONNECT_RETRY_TIME, LARGE_HOLD_TIME};

/// An UPDATE is acted on exactly where it comes in Established. The router decides what acting on it means.
pub fn updates_act_in_established_alone()
    ensures { ActsInEstablishedAlone }
{}

/// Established is entered with Up and left with Down, so that the two take turns in every run.
pub fn up_and_down_take_turns()
    ensures up { UpEntersEstablished }
    ensures down { DownLeavesEstablished }
    ensures turns { UpAndDownTakeTurns }
{}

/// In every run, once the session has hung up nothing is acted on before it comes up anew.
pub fn nothing_is_acted_on_after_a_close()
    ensures { NothingIsActedOnAfterAClose }
{}

/// A session that leaves any other state for Idle hangs up.
pub fn leaving_for_idle_hangs_up()
    ensures { LeavingForIdleHangsUp }
{}

/// If an OPEN came in OpenSent and either side proposed hold time 0, no timer runs out as long as the session stays in
/// OpenConfirm or Established. In OpenSent itself the HoldTimer runs.
pub fn hold_time_zero_never_expires()
    ensures { HoldTimeZeroNeverExpires }
{}

/// In every run, the HoldTimer runs out only once its whole time has passed without a KEEPALIVE or
/// UPDATE: 240 seconds in OpenSent, the agreed hold time afterwards.
pub fn hold_timer_expires_after_silence()
    ensures { HoldTimerExpiresAfterSilence }
{}

/// In every run, after a stop by hand and until the next start the session is Idle and no timer runs.
pub fn restart_waits_for_a_start()
    ensures { RestartWaitsForAStart }
{}

/// In every run each timer runs only in its own states. No two timers run at once but the HoldTimer and the
/// KeepaliveTimer.
pub fn each_timer_runs_in_its_states()
    ensures { EachTimerRunsInItsStates }
{}

/// A timer set to n runs out in the n-th second in which nothing else happens, and in none before. If several run out
/// together, only the first one's event comes, the HoldTimer's before all others.
pub fn timers_run_out_in_their_last_second()
    ensures hold { HoldTimerRunsOut }
    ensures keepalive { KeepaliveTimerRunsOut }
    ensures connect_retry { ConnectRetryTimerRunsOut }
    ensures restart { RestartTimerRunsOut }
{}

/// The ConnectRetryTime is 120 seconds (RFC 4271 section 10), and the large hold time of OpenSent 240 (section 8.2.2).
pub fn constants_are_these()
    ensures retry { CONNECT_RETRY_TIME ≡ 120 }
    ensures hold { LARGE_HOLD_TIME ≡ 240 }
{}
