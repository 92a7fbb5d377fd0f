//! The files by which conftests meet, by the handle of the process.

use cmd_standin::{Meeting, MeetingFiles};

/// Makes the files in the current directory of the process. Nothing is known of them.
#[derive(Drop)]
pub(crate) struct ProcessMeeting {
    files: HostRuntime,
}

impl ProcessMeeting {
    /// Returns what makes files by this handle.
    pub(crate) fn new(files: HostRuntime) -> ProcessMeeting {
        ProcessMeeting { files }
    }
}

impl Meeting for ProcessMeeting {
    fn make(&mut self, name: &str) {
        let mut files = MeetingFiles::new(&self.files);
        files.make(name);
    }

    fn is_there(&self, name: &str) -> bool {
        MeetingFiles::new(&self.files).is_there(name)
    }
}
