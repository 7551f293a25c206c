//! The script of a job.
ghost use Rattle.std.specs.Prelude.{◌∷◌, OnOk, IfOk};
ghost use Rattle.wc_slurm.specs.Script.{AddsWord, HasWords};

use crate::quoting::quoted;
use std::alloc::{AllocError, Global};
use wc_value::{Bytes, Request};

/// What comes before the program: a slot, and the folder of the lock, which the first run alone can make.
const BEFORE: &str =
    r#"# Runs the program of this job, once: a second run ends at the folder _wc_lock.
# What the program writes is in stdout.txt and stderr.txt, and its exit code then in _wc_status.
trap '' HUP
case $0 in */*) cd "${0%/*}" || exit 1 ;; esac
# While one run waits or goes on, another ends here. The system frees this lock when this ends.
if command -v flock >/dev/null && true >>_wc_run.sh; then
  exec 7>>_wc_run.sh
  flock -n 7
  [ "$?" -eq 1 ] && exit 0
fi
[ -e _wc_status ] && exit 0
# Waits for a slot, one of as many files in ../slots as jobs may run beside each other: MAROONCLAMP_JOBS, or else one a
# processor; 0 is no limit, and without the command flock there is none. The system frees the slot when this ends.
_wc_slot() {
  _wc_slots=${MAROONCLAMP_JOBS-}
  case $_wc_slots in
    '' | *[!0-9]* | ??????????*)
      _wc_slots=$(nproc 2>/dev/null || getconf _NPROCESSORS_ONLN 2>/dev/null) || _wc_slots=0 ;;
  esac
  [ "$_wc_slots" -gt 0 ] && command -v flock >/dev/null && mkdir -p ../slots || return
  # One waiting script at a time looks for a free slot: after 10 ms, and then less often, up to each 0.16 s.
  true >>../slots/queue && exec 8>>../slots/queue && flock 8 || return
  _wc_rests='0.01 0.02 0.04 0.08 0.16'
  while :; do
    _wc_at=1
    while [ "$_wc_at" -le "$_wc_slots" ]; do
      true >>"../slots/$_wc_at" && exec 9>>"../slots/$_wc_at" || { exec 8>&-; return; }
      flock -n 9 && exec 8>&- && return
      _wc_at=$((_wc_at + 1))
    done
    sleep "${_wc_rests%% *}" 2>/dev/null || sleep 1
    _wc_rests=${_wc_rests#* }
  done
}
_wc_slot
# The command sync, where it takes files, brings the lock to the disk before the program runs: a machine that loses its
# power doesn't forget that it ran.
case $(sync --help 2>&1) in *FILE*) _wc_sync=sync ;; *) _wc_sync=true ;; esac
mkdir _wc_lock || exit 0
"$_wc_sync" .
# On a cluster the word slurm stands behind: the signal that ends the program leaves this its time to write the code, and the file _wc_runs
# tells which run made the lock. Where it can't be written, nothing is run, and a later run may.
if [ "${1-}" = slurm ]; then
  trap : TERM
  { echo "$SLURM_JOB_ID ${SLURM_RESTART_COUNT:-0} ${SLURMD_NODENAME:-$(hostname)}" >_wc_runs && "$_wc_sync" _wc_runs; } || {
    echo "the script of the job failed: _wc_runs can't be written" >_wc_failed
    rmdir _wc_lock
    exit 1
  }
fi
# Where the output can't be written, nothing is run, and a later run may.
true >stdout.txt && true >stderr.txt || {
  echo "the script of the job failed: stdout.txt or stderr.txt can't be written" >_wc_failed
  rmdir _wc_lock
  exit 1
}
(exec"#;

/// What comes behind the program: its files are brought to the disk, and then its exit code.
const BEHIND: &str = r#") </dev/null >stdout.txt 2>stderr.txt 7>&- 8>&- 9>&-
_wc_code=$?
exec 9>&-
# Brings the files to the disk, and tries for the exit code while there is no room.
find . ! -name . -prune -type f -exec "$_wc_sync" {} +
until echo "$_wc_code" >_wc_status.tmp && { "$_wc_sync" _wc_status.tmp; mv _wc_status.tmp _wc_status; }; do
  [ -e _wc_request ] || exit 1
  echo "the script of the job failed: _wc_status can't be written" >_wc_failed
  sleep 5
done
"#;

/// Puts a word, in quotes, behind a blank.
#[tactic(auto, using(crate::proofs::Words::add_word))]
fn put_word(alloc: Global, script: &mut Bytes, word: &[u8]) -> Result<(), AllocError>
    ensures { OnOk result (AddsWord word.now script.old script.new) }
{
    script.push(b' ')?;
    script.extend(quoted(alloc, word)?.bytes())
}

/// The script that runs the program of a request.
#[tactic(auto, using(crate::proofs::Words::first_word))]
pub fn script_of(alloc: Global, request: &Request) -> Result<Bytes, AllocError>
    ensures { IfOk result (λ script. HasWords BEFORE.now (request.now.program ∷ request.now.args) BEHIND.now script) }
{
    let mut script = Bytes::new(alloc);
    script.extend(BEFORE.as_bytes())?;
    put_word(alloc, &mut script, request.program.bytes())?;
    for word in request.args.as_slice() {
        put_word(alloc, &mut script, word.bytes())?;
    }
    script.extend(BEHIND.as_bytes())?;
    Ok(script)
}
